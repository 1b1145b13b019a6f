// The places of the contents that jobs write.
ghost use Rattle.std.specs.Prelude.{◌≡◌, ◌+◌, length, get_or, slice_set, option_map, IfOk, IfSome, IsSomeAnd, Some, None};
ghost use Rattle.block_machine.specs.Blocks.{desc_of};
ghost use Rattle.nv_desk.specs.Places.{AllReady, put_back};

use block_machine::block_config::Config;
use block_machine::nv_base::Bytes;
use nv_desk_state::length;
use std::alloc::{AllocError, Global};
use std::marker::Model;

/// The place of a block's content: as many bytes as it has, if no job has them.
#[derive(Drop)]
pub struct Place {
    bytes: Option<Bytes>,
}

impl Model for Place {
    ghost use Rattle.std.specs.Prelude.{ℕ, List, Option};

    ghost Value = { Option (List ℕ) };

    ghost view = { λ p. p.bytes };
}

impl Place {
    // Puts a content there, and takes it away.
    fn fill(&mut self, content: &[u8]) -> Option<Bytes>
        requires { IfSome self.old (λ bytes. length bytes ≡ length content.now) }
        ensures filled { result ≡ option_map (λ bytes. content.now) self.old }
        ensures taken { self.new ≡ None }
    {
        let mut bytes = self.bytes.take()?;
        bytes.copy_from_slice(content);
        Some(bytes)
    }

    // Puts bytes back.
    fn put(&mut self, bytes: Bytes)
        ensures { self.new ≡ Some bytes }
    {
        self.bytes = Some(bytes);
    }
}

/// A place for the content of each block, by id from 0. Contracts see the list.
#[derive(Drop)]
pub struct Places {
    places: Vec<Place>,
}

impl Model for Places {
    ghost use Rattle.nv_desk.specs.Places.{Ready};

    ghost Value = { Ready };

    ghost view = { λ p. p.places.items };
}

impl Places {
    /// Each place stands ready. It takes all the memory that the contents of jobs ever need.
    #[tactic(auto, using(crate::proofs::Ready::ready_pushed))]
    pub fn make(alloc: Global, config: &Config) -> Result<Places, AllocError>
        ensures places { IfOk result (λ p. length p ≡ length config.now.blocks + 1) }
        ensures ready { IfOk result (λ p. AllReady config.now p) }
    {
        let count = config.blocks() + 1;
        let mut places = Vec::with_capacity(alloc, usize::from(count))?;
        for id in 0..count {
            places.push(place_of(alloc, config, id)?)?;
        }
        Ok(Places { places })
    }

    /// Puts a content to its block's place, and takes it from there. It takes no memory.
    pub fn fill(&mut self, block: u16, content: &[u8]) -> Option<Bytes>
        requires { IsSomeAnd (get_or self.old block None) (λ bytes. length bytes ≡ length content.now) }
        ensures filled { result ≡ Some content.now }
        ensures taken { self.new ≡ slice_set self.old block None }
    {
        if usize::from(block) < self.places.len() {
            self.places[usize::from(block)].fill(content)
        } else {
            None
        }
    }

    /// Puts the bytes of a content, if there is one, back to their block's place.
    pub fn put(&mut self, block: u16, content: Option<Bytes>)
        ensures { self.new ≡ put_back self.old block content }
    {
        let Some(bytes) = content else {
            return;
        };
        if usize::from(block) < self.places.len() {
            self.places[usize::from(block)].put(bytes);
        }
    }
}

// A place that stands ready for a block's content.
fn place_of(alloc: Global, config: &Config, id: u16) -> Result<Place, AllocError>
    ensures { IfOk result (λ p. IsSomeAnd p (λ bytes. length bytes ≡ (desc_of config.now id).length)) }
{
    let bytes = Bytes::zeros(alloc, usize::from(length(config, id)))?;
    Ok(Place { bytes: Some(bytes) })
}
