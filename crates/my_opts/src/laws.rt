//! Laws of options.

ghost use Rattle.my_opts.specs.Built.{GivesWhatIsBuilt};

/// A URL and a builder on which the setters were called with the decoded parts and pairs of that
/// URL give equal options.
pub fn url_gives_what_a_builder_gives(text: &str)
    ensures { GivesWhatIsBuilt text.now }
{
    let _ = text;
}
