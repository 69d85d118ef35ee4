// Which of the rows that egress emitted a core has.
ghost use Rattle.std.specs.Prelude.{Bool, true, false};

/// Which of the rows that egress emitted a core has. It has no call, and contracts alone see its member.
pub trait CoreRows {
    /// Whether it has all of them.
    ghost all: { Bool };
}

/// All rows that egress emitted: it handed none on.
pub struct AllRows;

impl CoreRows for AllRows {
    ghost all = { true };
}

/// The rows that egress holds: those that it emitted after the ones that it handed on.
pub struct HeldRows;

impl CoreRows for HeldRows {
    ghost all = { false };
}
