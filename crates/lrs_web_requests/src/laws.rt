//! Laws of the router, over all paths.

ghost use Rattle.lrs_web_requests.specs.Paths.{FindsWhatIsNamed, FindsNothingElse};

/// The router finds a resource and a format exactly by the paths that name them: those that stand for themselves, and for
/// a route those that end in a name, of at least one byte and without a slash.
pub fn finds_what_is_named()
    ensures { FindsWhatIsNamed }
{}

/// So it finds nothing exactly by the paths that name nothing.
pub fn finds_nothing_else()
    ensures { FindsNothingElse }
{}
