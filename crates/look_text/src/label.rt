/// A key of mixedrun's words.
#[derive(Clone, Copy)]
pub enum Label {
    Flat,
    Rsrc,
    Pef,
    Main,
    Ram,
    Steps,
    Save,
    At,
    Count,
    Calls,
    Depth,
    CodeSet,
    Text,
    Image,
    Script,
}

impl Label {
    ghost use Rattle.std.specs.Prelude.{◌≡◌};
    ghost use Rattle.look_text.specs.Labels.{example as example_of, text_of};
    ghost use Rattle.look_text.specs.Wants.{TakesKind, wants_text};

    /// All keys of the words of mixedrun.
    pub const ALL: [Label; 15] = [
        Label::Flat,
        Label::Rsrc,
        Label::Pef,
        Label::Main,
        Label::Ram,
        Label::Steps,
        Label::Save,
        Label::At,
        Label::Count,
        Label::Calls,
        Label::Depth,
        Label::CodeSet,
        Label::Text,
        Label::Image,
        Label::Script,
    ];

    /// The text before the equals sign.
    pub fn text(self) -> &'static str
        ensures { result.now ≡ text_of self }
    {
        match self {
            Label::Flat => "flat",
            Label::Rsrc => "rsrc",
            Label::Pef => "pef",
            Label::Main => "main",
            Label::Ram => "ram",
            Label::Steps => "steps",
            Label::Save => "save",
            Label::At => "at",
            Label::Count => "count",
            Label::Calls => "n",
            Label::Depth => "depth",
            Label::CodeSet => "set",
            Label::Text => "text",
            Label::Image => "image",
            Label::Script => "script",
        }
    }

    /// A word that sets this key as it may be set.
    pub fn example(self) -> &'static str
        ensures { result.now ≡ example_of self }
    {
        match self {
            Label::Flat => "flat=FILE",
            Label::Rsrc => "rsrc=FILE",
            Label::Pef => "pef=FILE",
            Label::Main => "main=68k",
            Label::Ram => "ram=1024",
            Label::Steps => "steps=1000",
            Label::Save => "save=FILE",
            Label::At => "at=00010000",
            Label::Count => "count=1",
            Label::Calls => "n=1",
            Label::Depth => "depth=1",
            Label::CodeSet => "set=68k",
            Label::Text => "text=FILE",
            Label::Image => "image=FILE",
            Label::Script => "script=FILE",
        }
    }

    /// What the key wants: the kind of the values that mix_io takes for it.
    #[tactic(auto, using(crate::proofs::Ranges::written))]
    pub fn wants(self) -> &'static str
        ensures text { result.now ≡ wants_text self }
        ensures values { TakesKind self }
    {
        match self {
            Label::Main | Label::CodeSet => "68k or ppc",
            Label::Ram => "a number of KiB from 128 to 16384, in decimal without a leading zero",
            Label::Steps => "a number from 0 to 4294967295, in decimal without a leading zero",
            Label::At => "an address of eight upper-case hexadecimal digits",
            Label::Count => "a number from 1 to 4096, in decimal without a leading zero",
            Label::Calls => "a number from 1 to 1000, in decimal without a leading zero",
            Label::Depth => "a number from 1 to 300, in decimal without a leading zero",
            _ => "the name of a file, which is not empty",
        }
    }
}
