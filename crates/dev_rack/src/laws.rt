// What the journal says of the devices: the law is a contract, and its body does nothing.
ghost use Rattle.std.specs.Prelude.{ℕ, Bool};
ghost use Rattle.dev_rack.specs.Accounts.{Accounts};
ghost use Rattle.dev_rack.specs.Rack.{State};
ghost use Rattle.dev_rack.specs.RackClauses.{Asks, Ejects};
ghost use Rattle.dev_rack.specs.declared.answers.Answer.{Answer};

/// Through any number of asks and ejects the journal accounts for the devices: it grows by one entry for
/// each ask that a device got, and a device that stays told exactly the entries of its slot, as far as it tells
/// a conversation.
pub fn journal_laws()
    ensures begins { (s : State) → Accounts s s }
    ensures asks { (old new : State) (slot word : ℕ) (answer : Answer) → Asks old slot word answer new → Accounts old new }
    ensures ejects { (old new : State) (slot : ℕ) (held : Bool) → Ejects old slot held new → Accounts old new }
    ensures joins { (a b c : State) → Accounts a b → Accounts b c → Accounts a c }
{}
