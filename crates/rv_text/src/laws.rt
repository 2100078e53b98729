ghost use Rattle.rv_text.specs.Agrees.{ImagesAgree, ImagesAreInRange, ImagesArePlaces, TextsAreLong, TextsAreSmall};

/// The image of linear code that is ready and never stuck does on every input, over every folder
/// and with every number of instructions what the code means.
pub fn image_agrees()
    ensures { ImagesAgree }
{}

/// The image of linear code that is ready is one that can be run, and things lie in it where they
/// may.
#[tactic(auto, using(crate::proofs::Whole::images_in_range))]
pub fn image_is_allowed()
    ensures in_range { ImagesAreInRange }
    ensures places { ImagesArePlaces }
{}

/// How many words the text has, and that they are not more than the size of the code and the words
/// of the texts.
#[tactic(auto, using(crate::proofs::Settled::text_length, crate::proofs::Bounded::text_small))]
pub fn text_is_measured()
    ensures length { TextsAreLong }
    ensures small { TextsAreSmall }
{}
