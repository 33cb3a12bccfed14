ghost use Rattle.gdb_requests.specs.laws.Texts.{TextsReadBack};

/// How a request is read from its text. It does nothing: the clause is its point.
pub fn request_laws()
    ensures { TextsReadBack }
{}
