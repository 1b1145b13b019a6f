// The steps of a write.
ghost use Rattle.std.specs.Prelude.{◌≡◌, ◌<◌, ◌≤◌};
ghost use Rattle.ea_image.specs.Steps.{body_or_head, step_next, steps_left, IsStepOf};

/// The next step of a write: to erase the sector of the head or of the body, to program a page of the body, the head or
/// the gate.
#[derive(Clone, Copy)]
pub enum SlotStep {
    EraseHead,
    EraseBody,
    Body(u32),
    Head,
    Gate,
}

fn body_or_head(pages: u32, page: u32) -> SlotStep
    ensures { result ≡ body_or_head pages page }
{
    if page < pages {
        SlotStep::Body(page)
    } else {
        SlotStep::Head
    }
}

/// The step behind one, of a write whose body has so many pages.
pub fn step_next(pages: u32, step: SlotStep) -> SlotStep
    requires { IsStepOf pages step }
    ensures { result ≡ step_next pages step }
{
    match step {
        SlotStep::EraseHead => SlotStep::EraseBody,
        SlotStep::EraseBody => body_or_head(pages, 0),
        SlotStep::Body(page) => body_or_head(pages, page + 1),
        SlotStep::Head => SlotStep::Gate,
        SlotStep::Gate => SlotStep::EraseHead,
    }
}

/// The steps from one on to the end.
pub fn steps_left(pages: u32, step: SlotStep) -> u32
    requires step { IsStepOf pages step }
    requires few { pages ≤ 4096 }
    ensures { result ≡ steps_left pages step }
{
    match step {
        SlotStep::EraseHead => pages + 4,
        SlotStep::EraseBody => pages + 3,
        SlotStep::Body(page) => pages - page + 2,
        SlotStep::Head => 2,
        SlotStep::Gate => 1,
    }
}
