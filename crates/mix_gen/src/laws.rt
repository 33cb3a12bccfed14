ghost use Rattle.mix_gen.specs.laws.SampleLaws.{HasSampleBytes};

/// What follows from the definition of the sample image. It does nothing: the clause is its point.
pub fn sample_laws()
    ensures { HasSampleBytes }
{}
