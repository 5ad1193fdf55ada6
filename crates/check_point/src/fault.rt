/// Why bytes are no image from which a run goes on: they are torn, or the image is one of another
/// run.
#[derive(Clone, Copy, Debug, PartialEq, Eq)]
pub enum ImageFault {
    Torn,
    Other,
    Want,
}
