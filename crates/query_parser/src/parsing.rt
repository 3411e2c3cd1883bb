use feature_expr::Reading;

/// What a text is read with: its tokens and the features that it may name, and whether it may have parameters.
#[derive(Clone, Copy)]
pub struct Parsing<'a> {
    pub reading: Reading<'a>,
    pub with_params: bool,
}
