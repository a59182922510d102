//! The shape of segments, read place by place.

ghost use Rattle.std.specs.Prelude.{◌≡◌, IfOk, reverse};
ghost use Rattle.std.specs.Option.{option_map};
ghost use Rattle.flux_plan.specs.Reading as reads;
ghost use Rattle.flux_verify.specs.steps.Shapes.{reading_of};

use flux_model::ClassNo;
use flux_plan::{Arm, Instr};
use flux_values::{List, Memory};

/// What has been read of a segment: the classes are those that are taken, the latest last, and the arms those that are
/// still to come.
#[derive(Drop)]
pub enum Reading<'a> {
    /// Takes alone.
    Taking(List<ClassNo>),
    /// `Enter`.
    Entered(List<ClassNo>),
    /// A choice, and whole arms; or a call.
    Between(&'a [Arm], List<ClassNo>),
    /// Part of an arm.
    Within(&'a [Arm], List<ClassNo>),
    /// `Exit`, and perhaps drops.
    Dropping(List<ClassNo>),
    /// `Handle`.
    Handling,
    /// `EndHandle`.
    Closing,
    /// All.
    Whole,
}

/// Whether a class is above those that are taken.
fn is_above(classes: &List<ClassNo>, class: ClassNo) -> bool
    ensures { result ≡ reads.is_above class (reverse classes.now) }
{
    match classes.last() {
        Some(last) => last.0 < class.0,
        None => true,
    }
}

fn read_takes<'a>(mut classes: List<ClassNo>, instr: &Instr) -> Result<Option<Reading<'a>>, Memory>
    ensures { IfOk result (λ next.
        option_map reading_of next ≡ reads.in_takes (reverse classes) instr.now) }
{
    match instr {
        Instr::Take(class, _) => {
            if !is_above(&classes, *class) {
                return Ok(None);
            }
            classes.add(*class)?;
            Ok(Some(Reading::Taking(classes)))
        }
        Instr::Enter => Ok(Some(Reading::Entered(classes))),
        _ => Ok(None),
    }
}

fn read_body<'a>(classes: List<ClassNo>, instr: &'a Instr) -> Option<Reading<'a>>
    ensures { option_map reading_of result ≡ reads.in_body (reverse classes) instr.now }
{
    match instr {
        Instr::Call => Some(Reading::Between(&[], classes)),
        Instr::Choose(arms) => Some(Reading::Between(arms.as_slice(), classes)),
        _ => None,
    }
}

fn read_arm<'a>(arms: &'a [Arm], classes: List<ClassNo>, instr: &Instr) -> Option<Reading<'a>>
    ensures { option_map reading_of result ≡ reads.in_arm arms.now (reverse classes) instr.now }
{
    match instr {
        Instr::Go(_) => Some(Reading::Within(arms, classes)),
        Instr::Leave => Some(Reading::Between(arms, classes)),
        _ => None,
    }
}

fn read_exit<'a>(classes: List<ClassNo>, instr: &Instr) -> Option<Reading<'a>>
    ensures { option_map reading_of result ≡ reads.at_exit (reverse classes) instr.now }
{
    match instr {
        Instr::Exit => Some(Reading::Dropping(classes)),
        _ => None,
    }
}

/// The drop of the class that was taken last.
fn read_drop<'a>(mut classes: List<ClassNo>, class: ClassNo) -> Option<Reading<'a>>
    ensures { option_map reading_of result ≡ reads.one_less class (reverse classes) }
{
    match classes.pop() {
        Some(last) if class.0 == last.0 => Some(Reading::Dropping(classes)),
        _ => None,
    }
}

fn read_drops<'a>(classes: List<ClassNo>, instr: &Instr) -> Option<Reading<'a>>
    ensures { option_map reading_of result ≡ reads.in_drops (reverse classes) instr.now }
{
    match instr {
        Instr::Drop(class) => read_drop(classes, *class),
        Instr::Handle(_) if classes.is_empty() => Some(Reading::Handling),
        Instr::Return if classes.is_empty() => Some(Reading::Whole),
        _ => None,
    }
}

/// `Exit`, or the beginning of an arm, each at its place.
fn read_between<'a>(
    arms: &'a [Arm],
    classes: List<ClassNo>,
    exit: u32,
    place: u32,
    instr: &Instr,
) -> Option<Reading<'a>>
    ensures { let reading = reads.between arms.now (reverse classes) in
        option_map reading_of result ≡ reads.read_more exit place reading instr.now }
{
    match arms {
        [] if exit == place => read_exit(classes, instr),
        [arm, others @ ..] if arm.to == place => read_arm(others, classes, instr),
        _ => None,
    }
}

fn read_handling<'a>(instr: &Instr) -> Option<Reading<'a>>
    ensures { option_map reading_of result ≡ reads.in_handling instr.now }
{
    match instr {
        Instr::EndHandle => Some(Reading::Closing),
        _ => None,
    }
}

fn read_closing<'a>(instr: &Instr) -> Option<Reading<'a>>
    ensures { option_map reading_of result ≡ reads.in_closing instr.now }
{
    match instr {
        Instr::Return => Some(Reading::Whole),
        _ => None,
    }
}

/// What has been read with the instruction at a place, where the segment has this `exit`; none where the shape can't go
/// on with it.
pub fn read_more<'a>(
    reading: Reading<'a>,
    exit: u32,
    place: u32,
    instr: &'a Instr,
) -> Result<Option<Reading<'a>>, Memory>
    ensures { IfOk result (λ next. option_map reading_of next
        ≡ reads.read_more exit place (reading_of reading.entry) instr.now) }
{
    match reading {
        Reading::Taking(classes) => read_takes(classes, instr),
        Reading::Entered(classes) => Ok(read_body(classes, instr)),
        Reading::Between(arms, classes) => Ok(read_between(arms, classes, exit, place, instr)),
        Reading::Within(arms, classes) => Ok(read_arm(arms, classes, instr)),
        Reading::Dropping(classes) => Ok(read_drops(classes, instr)),
        Reading::Handling => Ok(read_handling(instr)),
        Reading::Closing => Ok(read_closing(instr)),
        Reading::Whole => Ok(None),
    }
}
