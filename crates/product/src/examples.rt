// The worked examples on single patches.
ghost use Rattle.product.specs.Examples.{Examples};

// The four examples are consequences of the rules.
pub fn examples_follow()
    ensures { Examples }
{}
