// What a stack is made over: one flash, or two.
ghost use Rattle.std.specs.Prelude.{◌≡◌, ℕ, IfErr, IfOk};
ghost use Rattle.nvm_flash.specs.block_config.Config.{Configuration};
ghost use Rattle.nvm_flash.specs.memif.Told.{Part, First, PartTold};
ghost use Rattle.nvm_flash.specs.nv_base.Geometry.{size_of};
ghost use Rattle.nvm_flash.specs.ram_blocks.Plain.{plain_blocks_of};
ghost use Rattle.script_player.specs.PlainTold.{told_by};
ghost use Rattle.script_player.specs.PlainPaying.{seen_by};
ghost use Rattle.nvm_lines.specs.declared.stop.Stop.{Stop as Why};
ghost use Rattle.nvm_top.specs.Flashes.{FlashesTold};
ghost use Rattle.nvm_top.specs.Play.{IsRightSize};
ghost use Rattle.nvm_callers.specs.nvm_moves.Beginning.{BeginsMoves};
ghost use Rattle.nvm_top.specs.Stack.{IsStarted, KeepsPlayed};

use nvm_flash::{Config, MemDevice, PlainSync, Stack};
use nvm_lines::Stop;
use std::alloc::Global;

/// What a stack is made over, one flash or two: it is handed in, and comes back from the stack's device. What that device is to
/// it, it says itself.
pub trait Flashes {
    /// The device over it.
    type Device: MemDevice;

    /// What is told of it.
    ghost told: { Self → FlashesTold };

    /// What the parts of its device told before the first start-up.
    ghost before: { Part → PartTold };

    /// Its device is made for this configuration, over what told this, with so many power cuts that can be planned.
    ghost is_origin: { Configuration → FlashesTold → ℕ → Type 0 };

    /// It comes back without a start-up, for this reason.
    ghost stops: { Configuration → FlashesTold → FlashesTold → Why → Type 0 };

    /// It comes back from its device: what the device told is so of it.
    ghost is_back: { Configuration → FlashesTold → FlashesTold → Self.Device → Type 0 };

    /// The stack of a configuration over it behind its first start-up, with so many power cuts that can be planned.
    fn start(
        self,
        alloc: Global,
        config: Config,
        cuts: u32,
    ) -> Result<Stack<Self::Device, PlainSync>, (Stop, Self)>
        requires { is_origin config (told self) cuts }
        ensures started { IfOk result (λ s. IsStarted config cuts (before First) (told_by Self.Device.told s)) }
        ensures copies { IfOk result (λ s. s.copies ≡ plain_blocks_of config) }
        ensures kept { IfOk result (λ s. KeepsPlayed s.ready before s.desk s.hand (Self.Device.told s.device) (Self.Device.clock s.device) × BeginsMoves (seen_by Self.Device.told Self.Device.clock s)) }
        ensures size { IfOk result (λ _. IsRightSize (size_of config.geometry) (told self).flash.bytes) }
        ensures stopped { IfErr result (λ e. stops config (told self) (told e.1) e.0) };

    /// Takes its device apart.
    fn back(device: Self::Device) -> Self
        ensures { (c : Configuration) (entry : FlashesTold) (cuts : ℕ) → is_origin c entry cuts → is_back c entry (told result) device };
}
