//! A law of what is asked, the contract of a call that does nothing.
ghost use Rattle.route.specs.Methods.{MethodsAreListed};

/// A method is refused exactly where the field Allow of the 405 doesn't list it (RFC 9110, section 15.5.6).
pub fn methods_are_listed()
    ensures { MethodsAreListed }
{}
