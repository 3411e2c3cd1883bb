ghost use Rattle.std.specs.Prelude.{◌≡◌, ◌≤◌, ◌++◌, length};
ghost use Rattle.session_replies.specs.Pieces.{number_text};
ghost use Rattle.session_replies.specs.Tags.{tag_text};

/// What a statement did, and how many rows it gave or changed.
#[derive(Clone, Copy, Debug, PartialEq, Eq)]
pub enum Tag {
    Begin,
    Commit,
    Rollback,
    Set,
    Select(u64),
    Insert(u64),
    Delete(u64),
    Update(u64),
}

impl Tag {
    /// Its text, up to the number that ends it.
    pub(crate) fn parts(self) -> (&'static [u8], Option<u64>)
        ensures text { result.0.now ++ number_text result.1 ≡ tag_text self }
        ensures short { length result.0.now ≤ 9 }
    {
        match self {
            Tag::Begin => (b"BEGIN", None),
            Tag::Commit => (b"COMMIT", None),
            Tag::Rollback => (b"ROLLBACK", None),
            Tag::Set => (b"SET", None),
            Tag::Select(count) => (b"SELECT ", Some(count)),
            Tag::Insert(count) => (b"INSERT 0 ", Some(count)),
            Tag::Delete(count) => (b"DELETE ", Some(count)),
            Tag::Update(count) => (b"UPDATE ", Some(count)),
        }
    }
}
