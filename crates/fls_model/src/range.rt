// What operations do to the bytes of a range.
ghost use Rattle.std.specs.Prelude.{◌≡◌, ◌≤◌, ◌+◌, length, replicate};
ghost use Rattle.fls_model.specs.Bytes.{and_bytes, AreBytes};
ghost use Rattle.fls_model.specs.Op.{after_op, MayLeave, Erase};
ghost use Rattle.fls_model.specs.Step.{programs};

fn and_into(target: &mut [u8], page: &[u8])
    requires { length target.old ≡ length page.now }
    ensures { target.new ≡ and_bytes target.old page.now }
{
    for i in 0..page.len() {
        target[i] = target[i] & page[i];
    }
}

fn fill_blank(target: &mut [u8])
    ensures { target.new ≡ replicate (length target.old) 255 }
{
    target.fill(255);
}

// Tells proofs that bytes are below 256.
pub(crate) fn below_256(bytes: &Vec<u8>)
    ensures { AreBytes bytes.now.items }
{}

// Clears the bits of a page that are zero in `page`.
pub fn program_range(bytes: &mut Vec<u8>, address: usize, page: &[u8])
    requires { address + length page.now ≤ length bytes.old.items }
    ensures done { bytes.new.items ≡ after_op (programs address page.now) bytes.old.items }
    ensures within { MayLeave (programs address page.now) bytes.old.items bytes.new.items }
    ensures size { length bytes.new.items ≡ length bytes.old.items }
{
    and_into(&mut bytes[address..address + page.len()], page);
    below_256(bytes);
}

// Sets all bits of a sector.
pub fn erase_range(bytes: &mut Vec<u8>, address: usize, count: usize)
    requires { address + count ≤ length bytes.old.items }
    ensures done { bytes.new.items ≡ after_op (Erase address count) bytes.old.items }
    ensures within { MayLeave (Erase address count) bytes.old.items bytes.new.items }
    ensures size { length bytes.new.items ≡ length bytes.old.items }
{
    below_256(bytes);
    fill_blank(&mut bytes[address..address + count]);
}
