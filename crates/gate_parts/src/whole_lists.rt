//! What the clauses of a gate's calls come to over a whole list of answers.

ghost use Rattle.gate_parts.specs.WholeLists.{FarAfterAll, KeptAfterAll};

/// A gate that begins and goes on as its clauses say is, after any list of answers, where these bring its row, and keeps the
/// reply that its row then keeps. So what it asks and answers there is what its row says.
pub fn whole_lists_law()
    ensures far { FarAfterAll }
    ensures kept { KeptAfterAll }
{}
