// The names of inputs, as a stored form has them (RULES, Stored form and Class 2).
ghost use Rattle.std.specs.Prelude.{◌≡◌};
ghost use Rattle.std.specs.List.{list_all};
ghost use Rattle.words.specs.Texts.{is_input_name};
ghost use Rattle.record.specs.Limits.{only_in_2};
ghost use Rattle.record.specs.Wanted.{counted_in};
ghost use Rattle.record.specs.Rules.{are_names};

use record::class;

/// Names that follow one another, each after its length in one byte. They are tested when they are read, as their end
/// is found then.
#[derive(Clone, Copy)]
pub struct CountedNames<'a> {
    /// The names and their lengths.
    pub bytes: &'a [u8],
    /// How many names there are.
    pub count: usize,
    /// Whether each is the name of an input: at most 128 bytes, each 0x20 to 0xFF (RULES, Texts).
    pub are_named: bool,
    ghost tested: { are_named ≡ list_all is_input_name (counted_in count bytes.now) },
}

impl<'a> CountedNames<'a> {
    /// Returns whether there are as many names as Class 2 requires for this many inputs.
    #[tactic(auto, using(record::proofs::CountedNames::counted_named))]
    pub fn are_fitting(&self, class: u8, inputs: usize) -> bool
        ensures { result ≡ are_names (only_in_2 class inputs) (counted_in self.now.count self.now.bytes.now) }
    {
        self.count == class::only_in_2(class, inputs) && self.are_named
    }
}
