ghost use Rattle.std.specs.Prelude.{ℕ, List};
ghost use Rattle.cc_desk.specs.Lists.{Apart};

/// A value that a desk may hold. It can be dropped, since the table's slot, empty after `close`, is dropped with the table.
pub trait Held: Drop {
    /// Plain data: how a value stood when what it has been through began.
    type Root;

    /// What happened to the value.
    type Event;

    /// What a process that is out was handed.
    type Grants;

    /// How the value stands, as a root of what is to come.
    ghost start: { Self → Self.Root };

    /// What has happened, in its order.
    ghost events: { Self → List Self.Event };

    /// The processes that are out, each with what it was handed.
    ghost outs: { Self → List (ℕ × Self.Grants) };

    /// What began at that root may have led to the value.
    ghost since: { Self → Self.Root → Type 0 };

    /// No process is out twice in a value that is since any root.
    ghost outs_apart: { (x : Self) (root : Self.Root) → since x root → Apart (outs x) };
}
