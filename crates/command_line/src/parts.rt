// The words of a command line, each by its name.

/// The positional words in order, and the values of the options. What isn't given is none.
#[derive(Clone, Copy)]
pub(crate) struct Parts<'a> {
    pub(crate) first: Option<&'a str>,
    pub(crate) second: Option<&'a str>,
    pub(crate) third: Option<&'a str>,
    pub(crate) cash: Option<&'a str>,
    pub(crate) script: Option<&'a str>,
    pub(crate) threads: Option<&'a str>,
    pub(crate) turns: Option<&'a str>,
    pub(crate) journal: Option<&'a str>,
}
