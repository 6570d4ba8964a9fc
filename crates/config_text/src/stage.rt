//! Which line comes next.

ghost use Rattle.std.specs.Prelude.{◌≡◌, nat_le};
ghost use Rattle.config_text.specs.Rules as spec;

use text_lines::is_text;

/// Which line comes next.
#[derive(Clone, Copy, Debug, PartialEq, Eq)]
pub enum Stage {
    Header,
    Count,
    Classes,
    Processors,
    Cycle,
    Rounds,
    Quantum,
    Console,
    /// A script or what follows.
    Scripts,
    /// A gate or what follows.
    Gates,
    /// A process or what follows.
    Processes,
    /// An item or the end.
    Items,
    /// Nothing.
    Ended,
}

/// What a line behind the header is, by its first word.
#[derive(Clone, Copy, Debug, PartialEq, Eq)]
pub enum Kind {
    Script,
    Gate,
    Process,
    Events,
    Mix,
    Sweep,
    End,
}

/// The kind of a line with this first word.
#[tactic(auto, unfolding(crate::specs::Rules::kind_of))]
pub fn kind_of(word: &[u8]) -> Option<Kind>
    ensures { result ≡ spec.kind_of word.now }
{
    if is_text(word, b"script") {
        return Some(Kind::Script);
    }
    if is_text(word, b"gate") {
        return Some(Kind::Gate);
    }
    if is_text(word, b"process") {
        return Some(Kind::Process);
    }
    if is_text(word, b"events") {
        return Some(Kind::Events);
    }
    if is_text(word, b"mix") {
        return Some(Kind::Mix);
    }
    if is_text(word, b"sweep") {
        return Some(Kind::Sweep);
    }
    if is_text(word, b"end") {
        return Some(Kind::End);
    }
    None
}

/// How far the stage is, behind the header.
fn stage_rank(stage: Stage) -> u8
    ensures { result ≡ spec.stage_rank stage }
{
    match stage {
        Stage::Scripts => 0,
        Stage::Gates => 1,
        Stage::Processes => 2,
        Stage::Items => 3,
        _ => 4,
    }
}

/// How far a line of the kind may stand.
fn kind_rank(kind: Kind) -> u8
    ensures { result ≡ spec.kind_rank kind }
{
    match kind {
        Kind::Script => 0,
        Kind::Gate => 1,
        Kind::Process => 2,
        _ => 3,
    }
}

/// Whether a line of the kind may stand at the stage.
pub fn may_stand(stage: Stage, kind: Kind) -> bool
    ensures { result ≡ spec.may_stand stage kind }
{
    stage_rank(stage) <= kind_rank(kind)
}

/// What comes after a class line, with this many still to come.
pub fn after_class(due: u8) -> Stage
    ensures { result ≡ spec.after_class due }
{
    if due == 0 {
        return Stage::Processors;
    }
    Stage::Classes
}
