//! The mirror: what an owner and a taker share.
ghost use Rattle.std.specs.Prelude.{◌≡◌, ℕ, ◌+◌, ◌-◌, ◌<◌, ◌≤◌, ◌^◌, ◌++◌, [], ◌∷◌, length, vec_len, replicate, IfNone, IfSome, IfOk, None};
ghost use Rattle.ram_mirrors.specs.Stores.{store_number, store_of, stored_in, AllStored};
ghost use Rattle.ram_mirrors.specs.Ends.{counted, IsOwnerOf, IsTakerOf, IsFresh, NothingNewer, TakesNewest, ShowsNewest};
ghost use Rattle.ram_mirrors.specs.Exchange.{maker, IsMade, owner_begins, taker_begins, owner_half, taker_half};

use crate::buffer::Buffer;
use crate::ends::{Owner, Taker};
use crate::exchange::{
    Halves, Look, OwnerBegins, StoreSwap, TakeSwap, TakerBegins, TakerEnds, ThreeBuffers,
};
use crate::view::View;
use atomic_table::{Seat, Table};
use std::alloc::{AllocError, Global};
use std::marker::Model;
use std::mem;

const LAST_NUMBER: u64 = 1 << 60;

/// The place of one word and three slots. Contracts see which one it is, and the length of its contents in bytes.
#[derive(Drop)]
pub struct Mirror<N> {
    table: Table<Buffer<N>, View<N>, usize, ThreeBuffers, Global>,
}

impl<N> Model for Mirror<N> {
    ghost use Rattle.std.specs.Prelude.{◌≡◌};
    ghost use Rattle.ram_mirrors.specs.Ends.{MirrorValue};

    ghost Value = { MirrorValue };

    ghost view = { λ m. record { table = m.table.shared.table_id; size = m.table.shared.key } };

    ghost invariant = { λ m. (m.table.shared.table_id.words ≡ 1) × (m.table.shared.table_id.slots ≡ 3) };
}

/// Makes a mirror for contents of `length` bytes, with its two ends. There is no store yet. This alone takes memory.
pub fn make<N: Drop>(
    alloc: Global,
    length: u16,
) -> Result<(Mirror<N>, Owner<N>, Taker<N>), AllocError>
    ensures size { IfOk result (λ r. r.0.size ≡ length) }
    ensures ends { IfOk result (λ r. IsOwnerOf r.0 r.1 × IsTakerOf r.0 r.2) }
    ensures fresh { IfOk result (λ r. (r.1.stores ≡ []) × IsFresh length r.2) }
{
    let size = usize::from(length);
    let owned = empty(alloc, size)?;
    let taken = empty(alloc, size)?;
    let slots = first_slots(alloc, size)?;
    match Table::new(alloc, &[2], slots, &size) {
        Ok((table, seat)) => Ok(with_ends(alloc, Mirror { table }, seat, owned, taken)),
        Err(_refused) => Err(AllocError),
    }
}

fn zeros(alloc: Global, count: usize) -> Result<Vec<u8>, AllocError>
    ensures { IfOk result (λ v. v.items ≡ replicate count 0) }
{
    vec![in alloc; 0u8; count]
}

// A buffer of zeros, with nothing to hand along.
fn empty<N>(alloc: Global, size: usize) -> Result<Buffer<N>, AllocError>
    ensures { IfOk result (λ b. stored_in b ≡ store_of (replicate size 0) None) }
{
    Ok(Buffer {
        bytes: zeros(alloc, size)?,
        note: None,
    })
}

fn first_slots<N: Drop>(alloc: Global, size: usize) -> Result<Vec<Buffer<N>>, AllocError>
    ensures { IfOk result (λ v. IsMade stored_in size v.items) }
{
    let home = empty(alloc, size)?;
    let mut slots = Vec::new(alloc);
    slots.push(Buffer::none(alloc))?;
    slots.push(Buffer::none(alloc))?;
    slots.push(home)?;
    Ok(slots)
}

fn with_ends<N: Drop>(
    alloc: Global,
    mirror: Mirror<N>,
    mut seat: Seat<Buffer<N>, View<N>>,
    owned: Buffer<N>,
    taken: Buffer<N>,
) -> (Mirror<N>, Owner<N>, Taker<N>)
    requires seat { (seat.table_id ≡ mirror.table) × (seat.me ≡ (maker mirror.size, [])) }
    requires owned { length owned.bytes.items ≡ mirror.size }
    requires taken { stored_in taken ≡ store_of (replicate mirror.size 0) None }
    ensures mirror { result.0 ≡ mirror }
    ensures ends { IsOwnerOf mirror result.1 × IsTakerOf mirror result.2 }
    ensures fresh { (result.1.stores ≡ []) × IsFresh mirror.size result.2 }
{
    let other = mirror.table.shared.split_seat::<Halves>(&mut seat);
    let owner = mirror.owner_on(alloc, seat, owned);
    let taker = mirror.taker_on(alloc, other, taken);
    (mirror, owner, taker)
}

fn next_number(count: u64) -> u64
    requires { count ≤ 2 ^ 60 }
    ensures { result ≡ store_number (count + 1) }
{
    if count < LAST_NUMBER {
        count + 1
    } else {
        LAST_NUMBER
    }
}

fn next_look(count: u64) -> u64
    ensures { result ≡ counted (count + 1) }
{
    if count < u64::MAX { count + 1 } else { count }
}

fn fill<N: Drop>(buffer: &mut Buffer<N>, content: &[u8], note: Option<N>)
    requires { vec_len buffer.old.bytes ≡ length content.now }
    ensures { stored_in buffer.new ≡ store_of content.now note }
{
    buffer.bytes.as_mut_slice().copy_from_slice(content);
    buffer.note = note;
}

impl<N: Drop> Mirror<N> {
    fn owner_on(
        &self,
        alloc: Global,
        mut seat: Seat<Buffer<N>, View<N>>,
        buffer: Buffer<N>,
    ) -> Owner<N>
        requires seat { (seat.table_id ≡ self.now.table) × (seat.me ≡ (owner_half (maker self.now.size), [])) }
        requires buffer { length buffer.bytes.items ≡ self.now.size }
        ensures own { IsOwnerOf self.now result }
        ensures fresh { result.stores ≡ [] }
    {
        self.table.shared.load::<OwnerBegins>(&mut seat, 0);
        Owner {
            seat,
            slot: 0,
            count: 0,
            buffer,
            alloc,
        }
    }

    fn taker_on(
        &self,
        alloc: Global,
        mut seat: Seat<Buffer<N>, View<N>>,
        buffer: Buffer<N>,
    ) -> Taker<N>
        requires seat { (seat.table_id ≡ self.now.table) × (seat.me ≡ (taker_half (maker self.now.size), [])) }
        requires buffer { stored_in buffer ≡ store_of (replicate self.now.size 0) None }
        ensures own { IsTakerOf self.now result }
        ensures fresh { IsFresh self.now.size result }
    {
        self.table.shared.load::<TakerBegins>(&mut seat, 0);
        Taker {
            seat,
            slot: 1,
            number: 0,
            count: 0,
            buffer,
            alloc,
        }
    }

    /// Publishes a content of the mirror's length, with a note for the taker, and answers its number: how many stores there were
    /// with it, and 2^60 from the 2^60-th on. One swap and one copy of the content; it waits for nobody and takes no memory.
    pub fn store(&self, owner: &mut Owner<N>, content: &[u8], note: Option<N>) -> u64
        requires own { IsOwnerOf self.now owner.old }
        requires whole { length content.now ≡ self.now.size }
        ensures own { IsOwnerOf self.now owner.new }
        ensures stored { owner.new.stores ≡ owner.old.stores ++ store_of content.now note ∷ [] }
        ensures number { result ≡ store_number (length owner.new.stores) }
    {
        let next = next_number(owner.count);
        fill(&mut owner.buffer, content, note);
        let buffer = mem::replace(&mut owner.buffer, Buffer::none(owner.alloc));
        let shared = &self.table.shared;
        let empty = shared.exchange(&mut owner.seat, owner.slot, buffer);
        let word = owner.slot as u64 + 4 + 8 * next;
        let found = shared.swap::<StoreSwap>(&mut owner.seat, 0, word);
        owner.slot = (found % 4) as usize;
        owner.buffer = shared.exchange(&mut owner.seat, owner.slot, empty);
        owner.count = next;
        next
    }

    /// Looks once. Where there was a store since the last take, takes the newest, and answers its number; the content
    /// is then `Taker::content`. One load, and one swap where it takes; it waits for nobody and takes no memory.
    pub fn refresh(&self, taker: &mut Taker<N>) -> Option<u64>
        requires own { IsTakerOf self.now taker.old }
        ensures own { IsTakerOf self.now taker.new }
        ensures none { IfNone result (NothingNewer taker.old taker.new) }
        ensures some { IfSome result (λ n. TakesNewest taker.old n taker.new) }
        ensures shows { ShowsNewest taker.old taker.new }
    {
        let shared = &self.table.shared;
        let looks = next_look(taker.count);
        let shown = shared.load::<Look>(&mut taker.seat, 0);
        taker.count = looks;
        if shown < 4 {
            return None;
        }
        let buffer = mem::replace(&mut taker.buffer, Buffer::none(taker.alloc));
        let empty = shared.exchange(&mut taker.seat, taker.slot, buffer);
        let found = shared.swap::<TakeSwap>(&mut taker.seat, 0, taker.slot as u64);
        taker.slot = (found % 4) as usize;
        taker.buffer = shared.exchange(&mut taker.seat, taker.slot, empty);
        taker.number = found / 8;
        Some(found / 8)
    }

    /// Ends the mirror, with both its ends. Each pair that the taker got is a store of the owner, whole, with its
    /// number, and it was shown no store that the owner had not made.
    pub fn close(self, owner: Owner<N>, taker: Taker<N>)
        requires own { IsOwnerOf self owner × IsTakerOf self taker }
        ensures got { AllStored owner.stores taker.got }
        ensures shown { taker.shown ≤ length owner.stores }
    {
        let Mirror { table } = self;
        let Owner {
            mut seat,
            slot: _,
            count: _,
            buffer: _,
            alloc: _,
        } = owner;
        let Taker {
            seat: mut other,
            slot: _,
            number: _,
            count: _,
            buffer: _,
            alloc: _,
        } = taker;
        table.shared.load::<TakerEnds>(&mut other, 0);
        table.shared.join_seat::<Halves>(&mut seat, other);
        let mut closed = table.close_with(seat);
        drop(closed.take(0));
        drop(closed.take(1));
        drop(closed.take(2));
        closed.free();
    }
}
