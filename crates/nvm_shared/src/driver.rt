// The turns of a shared stack, which its one driver makes.
ghost use Rattle.std.specs.Prelude.{◌≡◌, ◌≤◌, ◌^◌, ℕ, List, length, true, is_some, IsTrue};
ghost use Rattle.nvm_core.specs.memif.Told.{faults_of};
ghost use Rattle.nvm_core.specs.memif.Clock.{SameClock};
ghost use Rattle.nvm_core.specs.memif.Trials.{Lasts};
ghost use Rattle.nvm_core.specs.nv_desk.Desk.{state_of};
ghost use Rattle.turn_gate.specs.Pass.{knows};
ghost use Rattle.nvm_core.specs.nvm_laws.declared.turned.Act.TheVariants.{Device};
ghost use Rattle.nvm_core.specs.nvm_laws.Keeps.{StaysKept};
ghost use Rattle.nvm_core.specs.nvm_laws.Work.{program_in_hand};
ghost use Rattle.nvm_core.specs.Lowers.{HalfLeft};
ghost use Rattle.nvm_core.specs.Work.{Lowers, TakesTurns};
ghost use Rattle.nvm_shared.specs.Locked.{desk_with};
ghost use Rattle.nvm_shared.specs.Passes.{IsUserOf, LearnsHalf, LearnsMore, LearnsTurn};
ghost use Rattle.nvm_shared.specs.Noted.{PickIsShown};
ghost use Rattle.nvm_core.specs.nvm_device_laws.Turn.{TellsSlots};
ghost use Rattle.script_walks.specs.Runs.{has_ended};
ghost use Rattle.nvm_shared.specs.Driving.{DriverState, IsDriverOf, BeginsTurn, IsTurned, EndsTurn, MayEnd, NeedsNoMore, SeesRequests, ServesDue, TurnsBehind, driver_of, stack_of};

use crate::noted::{NotedCopies, hold_picked, see_asked};
use crate::shared::{Shared, StackPass};
use nvm_core::{Act, DeviceTurn, Driver, MemDevice, Turned};
use std::sync::Wait;

/// The device's own turn, without the lock.
pub fn device_turn<D: MemDevice, C: NotedCopies + Drop>(driver: &mut Driver<D, C>) -> DeviceTurn
    ensures turns { IsTurned D.told D.clock result driver.old driver.new }
{
    let _status = driver.device.status();
    driver.device.turn()
}

impl Shared {
    /// Sees the whole list, and tells how many entries it has: nothing but requests of others came since.
    pub fn count_with<W: Wait, D: MemDevice, C: NotedCopies + Drop>(
        &self,
        rt: &W,
        pass: &mut StackPass,
        driver: &Driver<D, C>,
    ) -> u32
        requires driver { IsDriverOf D.told D.clock C.told self.now pass.old driver.now }
        ensures driver { IsDriverOf D.told D.clock C.told self.now pass.new driver.now }
        ensures count { result ≡ length (knows pass.new).seen }
        ensures parts { (knows pass.new).parts ≡ (knows pass.old).parts }
        ensures keeps { StaysKept (desk_with self.now.terms (knows pass.old).seen) driver.now.hand (D.told driver.now.device) (D.clock driver.now.device) (desk_with self.now.terms (knows pass.new).seen) driver.now.hand (D.told driver.now.device) (D.clock driver.now.device) }
        ensures learns { LearnsTurn (knows pass.old) (knows pass.new) }
        ensures more { LearnsMore (knows pass.old) (knows pass.new) }
        ensures sees { SeesRequests D.told D.clock (desk_with self.now.terms (knows pass.old).seen) (desk_with self.now.terms (knows pass.new).seen) driver.now }
    {
        let _status = driver.device.status();
        self.count(rt, pass)
    }

    /// The first half of a turn, under the lock: all but the device's own turn. Before it the store that the next job asks for is looked
    /// for, so that no copy is stale.
    pub fn begin<W: Wait, D: MemDevice, C: NotedCopies + Drop>(
        &self,
        rt: &W,
        pass: &mut StackPass,
        driver: &mut Driver<D, C>,
    ) -> Act
        requires driver { IsDriverOf D.told D.clock C.told self.now pass.old driver.old }
        requires telling { self.now.terms.tells ≡ true → TellsSlots (D.told driver.old.device) }
        requires lock { C.is_of self.now.gate }
        ensures driver { IsDriverOf D.told D.clock C.told self.now pass.new driver.new }
        ensures begins { BeginsTurn D.told D.clock C.told C.is_store C.looked result (desk_with self.now.terms (knows pass.old).seen) (desk_with self.now.terms (knows pass.new).seen) driver.old driver.new }
        ensures keeps { StaysKept (desk_with self.now.terms (knows pass.old).seen) driver.old.hand (D.told driver.old.device) (D.clock driver.old.device) (desk_with self.now.terms (knows pass.new).seen) driver.new.hand (D.told driver.new.device) (D.clock driver.new.device) }
        ensures left { HalfLeft result (program_in_hand driver.old.hand) (D.told driver.old.device) (program_in_hand driver.new.hand) (D.told driver.new.device) }
        ensures shown { result ≡ Act.Ended Turned.Picked → PickIsShown C.is_store C.looked C.over C.stands self.now.terms.config (knows pass.new).seen driver.old.copies driver.new.copies }
        ensures off { result ≡ Act.Ended Turned.Off → (state_of (desk_with self.now.terms (knows pass.new).seen)).off ≡ true }
        ensures clock { SameClock (D.clock driver.old.device) (D.clock driver.new.device) }
        ensures stays_over { (first : C) → C.over first driver.old.copies → C.over first driver.new.copies }
        ensures learns { LearnsHalf (knows pass.old) (knows pass.new) }
    {
        let mut value = self.gate.enter(rt, pass);
        let number = value.len();
        let _before = driver.device.status();
        see_asked(rt, &mut driver.copies, value.asked());
        let act = value.first_half(driver);
        let picked = value.picked_behind(number);
        hold_picked(&mut driver.copies, picked, self, pass);
        let _status = driver.device.status();
        let _len = value.len();
        self.leave(pass, value, number);
        act
    }

    /// The second half of a turn, under the lock: what the device's turn came to.
    pub fn finish<W: Wait, D: MemDevice, C: NotedCopies + Drop>(
        &self,
        rt: &W,
        pass: &mut StackPass,
        driver: &mut Driver<D, C>,
        turned: DeviceTurn,
    ) -> Turned
        requires own { IsUserOf self.now pass.old }
        requires mark { (knows pass.old).mark ≡ true }
        requires turned { (before : DriverState D C) × MayEnd D.told D.clock C.told self.now.terms.tells turned (desk_with self.now.terms (knows pass.old).seen) before driver.old }
        ensures driver { IsDriverOf D.told D.clock C.told self.now pass.new driver.new }
        ensures ends { (before : DriverState D C) → MayEnd D.told D.clock C.told self.now.terms.tells turned (desk_with self.now.terms (knows pass.old).seen) before driver.old
            → EndsTurn D.told D.clock result (desk_with self.now.terms (knows pass.old).seen) (desk_with self.now.terms (knows pass.new).seen) before driver.new }
        ensures device { driver.new.device ≡ driver.old.device }
        ensures learns { LearnsHalf (knows pass.old) (knows pass.new) }
    {
        let mut value = self.gate.enter(rt, pass);
        let number = value.len();
        let answer = value.second_half(driver, turned);
        let _len = value.len();
        self.leave(pass, value, number);
        answer
    }

    /// A whole turn, behind requests of others before each half.
    pub fn turn<W: Wait, D: MemDevice, C: NotedCopies + Drop>(
        &self,
        rt: &W,
        pass: &mut StackPass,
        driver: &mut Driver<D, C>,
    ) -> Turned
        requires driver { IsDriverOf D.told D.clock C.told self.now pass.old driver.old }
        requires telling { self.now.terms.tells ≡ true → TellsSlots (D.told driver.old.device) }
        requires lock { C.is_of self.now.gate }
        ensures driver { IsDriverOf D.told D.clock C.told self.now pass.new driver.new }
        ensures parts { (knows pass.new).parts ≡ (knows pass.old).parts }
        ensures keeps { StaysKept (desk_with self.now.terms (knows pass.old).seen) driver.old.hand (D.told driver.old.device) (D.clock driver.old.device) (desk_with self.now.terms (knows pass.new).seen) driver.new.hand (D.told driver.new.device) (D.clock driver.new.device) }
        ensures turns { TurnsBehind D.told D.clock C.told C.is_store C.looked result (desk_with self.now.terms (knows pass.old).seen) (desk_with self.now.terms (knows pass.new).seen) driver.old driver.new }
        ensures counted { faults_of (D.told driver.old.device) ≤ faults_of (D.told driver.new.device) }
        ensures lasts { Lasts (D.told driver.old.device) (D.clock driver.old.device) (D.told driver.new.device) (D.clock driver.new.device) }
        ensures lowers { Lowers D.told result (stack_of (desk_with self.now.terms (knows pass.old).seen) driver.old) (stack_of (desk_with self.now.terms (knows pass.new).seen) driver.new) }
        ensures rests { (knows pass.old).parts ≡ 2 ^ 64 → NeedsNoMore result driver.old.hand → IsTrue (has_ended self.now.terms.config (knows pass.new).seen) }
        ensures due { ServesDue D.told (desk_with self.now.terms (knows pass.old).seen) (desk_with self.now.terms (knows pass.new).seen) driver.old driver.new }
        ensures left { TakesTurns D.told result (stack_of (desk_with self.now.terms (knows pass.old).seen) driver.old) (stack_of (desk_with self.now.terms (knows pass.new).seen) driver.new) }
        ensures shown { result ≡ Turned.Picked → PickIsShown C.is_store C.looked C.over C.stands self.now.terms.config (knows pass.new).seen driver.old.copies driver.new.copies }
        ensures stores_stay { (b n : ℕ) (x : List ℕ) → C.is_store driver.old.copies b n x → C.is_store driver.new.copies b n x }
        ensures stays_over { (first : C) → C.over first driver.old.copies → C.over first driver.new.copies }
        ensures learns { LearnsTurn (knows pass.old) (knows pass.new) }
    {
        match self.begin(rt, pass, driver) {
            Act::Ended(turned) => turned,
            Act::Device => {
                let turned = device_turn(driver);
                let answer = self.finish(rt, pass, driver, turned);
                answer
            }
        }
    }
}
