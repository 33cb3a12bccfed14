// What the definitions of instructions say of one another: each law is a contract, and its body does nothing.
ghost use Rattle.m68_effects.specs.laws.Laws.{ExchangesBack, PopsAddress, PopsData, PopsEffective, Returns, ReturnsAtOnce, SwapsBack, Unlinks, UnlinksAtOnce};
ghost use Rattle.m68_effects.specs.laws.MovemLaws.{RestoresLongs, RestoresWords};

/// What instructions that undo one another leave. It does nothing: the clauses are its point.
///
/// Where memory is stored into, each law is over stores that are allowed.
pub fn effect_laws()
    ensures exchanged { ExchangesBack }
    ensures swapped { SwapsBack }
    ensures moved { PopsData }
    ensures moved_address { PopsAddress }
    ensures effective { PopsEffective }
    ensures at_once { ReturnsAtOnce }
    ensures returned { Returns }
    ensures unlinked_at_once { UnlinksAtOnce }
    ensures unlinked { Unlinks }
    ensures longs { RestoresLongs }
    ensures words { RestoresWords }
{}
