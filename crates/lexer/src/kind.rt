// What a token is.
#[derive(Clone, Copy)]
pub enum Kind {
    Name,
    Variable,
    String,
    Number,
    Open,
    OpenCT,
    Close,
    OpenList,
    CloseList,
    OpenCurly,
    CloseCurly,
    HeadTailSeparator,
    DoubleBar,
    Comma,
    End,
}

#[derive(Clone, Copy)]
pub enum Value {
    Integer(u64),
    Float(f64),
    Nothing,
}

// A token that is not quoted, without its place.
#[derive(Clone, Copy)]
pub struct Plain {
    pub kind: Kind,
    pub value: Value,
    pub end: usize,
}
