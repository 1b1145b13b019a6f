// The steps of a switch, from the active bank to its target. Which one comes behind a done or a failed one says `Course` of fee_course.
ghost use Rattle.std.specs.Prelude.{◌≡◌, ◌<◌, true, false, None, Some, IfSome, is_some, length};
ghost use Rattle.nv_base.specs.Geometry.{sectors_of_bank};
ghost use Rattle.fls_model.specs.Step.{IsStep};
ghost use Rattle.fls_jobs.specs.CallOf.{closed_as};
ghost use Rattle.fls_jobs.specs.Start.{IsIdle};
ghost use Rattle.fee_log.specs.Index.{clear_flags};
ghost use Rattle.fee_log.specs.Log.{work_in};
ghost use Rattle.fee_course.specs.Course.{IsShort};
ghost use Rattle.fee_switch.specs.Target.{IsWorking, op_at};
ghost use Rattle.fee_switch.specs.Copy.{CanBegin, BeginsAt, CanCopy, BeginsNext, CanGoOn, MakesNext, IsBankStep};
ghost use Rattle.fee_switch.specs.Banks.{is_worn_out, target_at, ended, advanced, fallen_back, after_answer};

use crate::copy::{begin_mark, copy_page, head_at, read_content};
use crate::due::{next_source, set_flag_due, target_of};
use crate::{ActiveBank, Banks, Stage, Target};
use fee_course::{Course, Source, next_copy};
use fee_format::{BankHead, NEW_FORMAT};
use fee_image::Place;
use fls_jobs::Fls;
use fls_model::{Flash, FlashAnswer};
use nv_base::DeviceNumber;

impl Banks {
    // The operation of the target itself that comes next: an erase, the head or the gate.
    fn program_target<F: Flash>(&self, fls: &mut Fls<F>, stage: Stage) -> FlashAnswer
        requires worn { is_worn_out self.now.active ≡ false }
        requires working { IsWorking (sectors_of_bank self.now.geometry self.now.banks) stage }
        requires idle { IsIdle fls.old }
        requires geometry { fls.old.geometry ≡ self.now.geometry }
        ensures step { IsStep (op_at (target_at self.now stage) stage) fls.old.flash result fls.new.flash }
        ensures same { fls.new ≡ record fls.old { flash = fls.new.flash; result = closed_as result } }
    {
        let generation = match self.active {
            Some(active) => active.head.generation + 1,
            None => 1,
        };
        let mut target = Target {
            geometry: self.geometry,
            banks: self.banks,
            bank: self.target,
            generation,
            stage,
        };
        target.step(fls)
    }

    // The target stands: it is active, and the bank behind it is the next target.
    fn turn_roles(&mut self)
        requires worn { is_worn_out self.old.active ≡ false }
        ensures { self.new ≡ ended self.old }
    {
        let generation = match self.active {
            Some(active) => active.head.generation + 1,
            None => 1,
        };
        let head = BankHead {
            format: NEW_FORMAT,
            generation,
        };
        let active = Some(ActiveBank {
            bank: self.target,
            head,
        });
        let target = target_of(active, self.banks);
        std::mem::swap(&mut self.log, &mut self.copies);
        self.first = 0;
        self.copies.move_to(target);
        self.active = active;
        self.target = target;
        self.course = None;
    }

    // An operation before the gate was done.
    fn advance(&mut self, course: Course)
        requires short { IsShort (sectors_of_bank self.old.geometry self.old.banks) course }
        ensures { self.new ≡ advanced self.old course }
    {
        set_flag_due(&mut self.log, course);
        let sectors = self.geometry.bank_sectors(self.banks);
        let next = next_source(&self.log, &mut self.first);
        self.course = Some(course.done(self.geometry.page, sectors, next));
    }

    // An operation failed: the gate is made again, and behind any other the first erase comes, or the same.
    fn fall_back(&mut self, course: Course)
        requires short { IsShort (sectors_of_bank self.old.geometry self.old.banks) course }
        ensures { self.new ≡ fallen_back self.old course }
    {
        let next = course.failed();
        match next {
            Course::Erase { .. } => {
                self.log.clear_flags();
                self.first = 0;
                self.copies.move_to(self.target);
                self.course = Some(next);
            }
            _ => self.course = Some(next),
        }
    }

    // What an answer leaves of the banks.
    fn settle(&mut self, course: Course, answer: FlashAnswer)
        requires short { IsShort (sectors_of_bank self.old.geometry self.old.banks) course }
        requires worn { is_worn_out self.old.active ≡ false }
        requires course { self.old.course ≡ Some course }
        ensures { self.new ≡ after_answer self.old course answer }
    {
        match (answer, course) {
            (FlashAnswer::Done, Course::Gate { .. }) => self.turn_roles(),
            (FlashAnswer::Done, course) => self.advance(course),
            (FlashAnswer::Failed, course) => self.fall_back(course),
            (FlashAnswer::Off, _) => {}
        }
    }

    // The first operation of the copy of a number.
    fn begin_copy<F: Flash>(
        &mut self,
        fls: &mut Fls<F>,
        number: DeviceNumber,
        source: Source,
    ) -> FlashAnswer
        requires can { CanBegin self.old number source }
        requires idle { IsIdle fls.old }
        requires geometry { fls.old.geometry ≡ self.old.geometry }
        ensures begins { BeginsAt source.place self.old number source.length fls.old.flash result self.new fls.new.flash }
        ensures same { fls.new ≡ record fls.old { flash = fls.new.flash; result = closed_as result } }
    {
        let head = head_at(source.place, number, source.length);
        match source.place {
            Place::Content { at, .. } => read_content(
                fls,
                &self.log,
                &mut self.copies,
                &mut self.buffer,
                head,
                at,
            ),
            _ => begin_mark(fls, &mut self.copies, head),
        }
    }

    // The first operation of the next copy.
    fn begin_next<F: Flash>(&mut self, fls: &mut Fls<F>) -> FlashAnswer
        requires can { CanCopy self.old }
        requires idle { IsIdle fls.old }
        requires geometry { fls.old.geometry ≡ self.old.geometry }
        ensures begins { BeginsNext self.old fls.old.flash result self.new fls.new.flash }
        ensures course { self.new.course ≡ self.old.course }
        ensures active { self.new.active ≡ self.old.active }
        ensures same { fls.new ≡ record fls.old { flash = fls.new.flash; result = closed_as result } }
    {
        let (numbers, places, flags) = self.log.lists();
        let Some(source) = next_copy(numbers, places, flags, self.first) else {
            unreachable!();
        };
        let Some(&(number, _)) = numbers.as_slice().get(source.index) else {
            unreachable!();
        };
        self.begin_copy(fls, number, source)
    }

    // Makes the next operation of a course.
    fn call<F: Flash>(&mut self, fls: &mut Fls<F>, course: Course) -> FlashAnswer
        requires course { self.old.course ≡ Some course }
        requires worn { is_worn_out self.old.active ≡ false }
        requires ready { CanGoOn self.old course }
        requires short { IsShort (sectors_of_bank self.old.geometry self.old.banks) course }
        requires idle { IsIdle fls.old }
        requires geometry { fls.old.geometry ≡ self.old.geometry }
        ensures short { IsShort (sectors_of_bank self.new.geometry self.new.banks) course }
        ensures makes { MakesNext self.old course fls.old.flash result self.new fls.new.flash }
        ensures course { self.new.course ≡ Some course }
        ensures worn { is_worn_out self.new.active ≡ false }
        ensures same { fls.new ≡ record fls.old { flash = fls.new.flash; result = closed_as result } }
    {
        match course {
            Course::Erase { done } => self.program_target(fls, Stage::Erase { done }),
            Course::Copy { work: None } => self.begin_next(fls),
            Course::Copy { work: Some(_) } => copy_page(fls, &mut self.copies, &self.buffer),
            Course::Head => self.program_target(fls, Stage::Head),
            Course::Gate { .. } => self.program_target(fls, Stage::Gate),
        }
    }

    /// Makes the next operation of the open switch by one call of the flash, and leaves no job open. A done erase is followed
    /// by the next one, and behind the last one the copies come: of each number in order that has a record and no copy,
    /// with one read of a content and one turn a page. The head and the gate come only where no copy is left; after a
    /// failed copy or head the first erase comes again, and a failed gate is programmed again until one is done: then the
    /// target is active. Answers what the flash did.
    pub fn step<F: Flash>(&mut self, fls: &mut Fls<F>) -> FlashAnswer
        requires open { is_some self.old.course ≡ true }
        requires no_work { work_in self.old.log.tail ≡ None }
        requires worn { is_worn_out self.old.active ≡ false }
        requires ready { IfSome self.old.course (CanGoOn self.old) }
        requires idle { IsIdle fls.old }
        requires geometry { fls.old.geometry ≡ self.old.geometry }
        ensures step { IfSome self.old.course (λ c. IsBankStep self.old c fls.old.flash result self.new fls.new.flash) }
        ensures same { fls.new ≡ record fls.old { flash = fls.new.flash; result = fls.new.result } }
    {
        let Some(course) = self.course else {
            unreachable!();
        };
        let answer = self.call(fls, course);
        self.settle(course, answer);
        answer
    }
}
