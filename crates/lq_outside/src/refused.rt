/// A disk that could not be opened as what it was to be: the disk itself, and why.
#[derive(Drop)]
pub struct LoadRefused<D, E> {
    pub disk: D,
    pub fault: E,
}
