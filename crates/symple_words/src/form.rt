/// The names of a command's positionals, of its options with a value, and of its flags.
#[derive(Clone, Copy)]
pub(crate) struct Form {
    pub positionals: &'static [&'static str],
    pub options: &'static [&'static str],
    pub flags: &'static [&'static str],
}
