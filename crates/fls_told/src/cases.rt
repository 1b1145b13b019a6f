// Images over which a device tells what its numbers hold. Its functions do nothing.
ghost use Rattle.std.specs.Prelude.{◌≡◌, ℕ, [], true, false, Some, None};
ghost use Rattle.memif.specs.Clock.{After, CutIn};
ghost use Rattle.memif.specs.Told.{Held};
ghost use Rattle.fls_told.specs.Device.{slots_now, flash_told};
ghost use Rattle.fls_told.specs.Clock.{flash_clock};
ghost use Rattle.fls_told.specs.Cases.{reading, sound, unsound, holds, over, once};

/// What stands is told before the first operation, whatever the image, and behind it where the image was sound. Of a flash that
/// tells no bytes nothing is told.
pub fn images_told()
    ensures first { slots_now (over (Some unsound) []) ≡ Some (holds unsound) }
    ensures behind { slots_now (over (Some unsound) (once unsound)) ≡ None }
    ensures sound_first { slots_now (over (Some sound) []) ≡ Some (holds sound) }
    ensures sound_behind { slots_now (over (Some sound) (once sound)) ≡ Some (holds sound) }
    ensures untold { slots_now (over None []) ≡ None }
    ensures tells { (flash_told (over (Some unsound) (once unsound))).tells ≡ true }
    ensures tells_none { (flash_told (over None [])).tells ≡ false }
{}

/// So a start-up before the first operation finds what stands in an image that isn't sound, and of no later moment, nor of a cut,
/// is it told what one would find.
pub fn images_found()
    ensures first { (flash_clock (over (Some unsound) (once unsound))).may_find (After 0) (reading.held unsound) }
    ensures later { (m : ℕ → Held) → (flash_clock (over (Some unsound) (once unsound))).may_find (After 1) m → ⊥ }
    ensures cut { (m : ℕ → Held) → (flash_clock (over (Some unsound) (once unsound))).may_find (CutIn 0) m → ⊥ }
    ensures sound_later { (flash_clock (over (Some sound) (once sound))).may_find (After 1) (reading.held sound) }
{}
