// The thirteen kinds of column.

/// The kinds of column, as the Arrow Columnar Format names them. The first seven hold bytes; the others have lengths only.
#[derive(Clone, Copy, PartialEq, Debug)]
pub enum Kind {
    Utf8,
    LargeUtf8,
    Binary,
    LargeBinary,
    FixedSizeBinary,
    Utf8View,
    BinaryView,
    List,
    LargeList,
    ListView,
    LargeListView,
    Map,
    FixedSizeList,
}
