// The worked example, as published and as it goes on.
#![tactic(auto)]

ghost use Rattle.worked.specs.Cases.{PublishedWords};

// Each case holds of the definitions that the calls' contracts use.
pub fn published_words()
    ensures { PublishedWords }
{}
