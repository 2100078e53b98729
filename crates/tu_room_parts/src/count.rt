use tu_base::Numbers;

/// What is counted in a text.
#[derive(Drop)]
pub enum Count {
    Nodes,
    /// The words of results of more than two words, where those of each routine's result are
    /// known, with 0 for two and less.
    Results(Numbers),
}
