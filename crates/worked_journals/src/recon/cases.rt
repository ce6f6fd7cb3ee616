//! The cases.

use pipe_schema::DataType;
use worked_columns::{INT, TEXT, WrittenColumn};

/// Two tables, and the key by which they are reconciled.
pub(crate) struct Case {
    pub(crate) name: &'static str,
    pub(crate) left: &'static [WrittenColumn<'static>],
    pub(crate) right: &'static [WrittenColumn<'static>],
    pub(crate) on: &'static [&'static str],
    pub(crate) join_nulls: bool,
}

/// All cases.
pub(crate) const CASES: &[Case] = &[
    Case {
        name: "repeated left keys and a null right one",
        left: &[("k", INT, &["1", "1", "2"])],
        right: &[("k", INT, &["1", "3", "-"])],
        on: &["k"],
        join_nulls: false,
    },
    Case {
        name: "a key of no column",
        left: &[("k", INT, &["1", "1", "2"])],
        right: &[("k", INT, &["1", "3", "-"])],
        on: &[],
        join_nulls: false,
    },
    Case {
        name: "nulls that don't join",
        left: &[("k", INT, &["-", "4", "-"])],
        right: &[("k", INT, &["5", "-", "4", "-"])],
        on: &["k"],
        join_nulls: false,
    },
    Case {
        name: "nulls that join",
        left: &[("k", INT, &["-", "4", "-"])],
        right: &[("k", INT, &["5", "-", "4", "-"])],
        on: &["k"],
        join_nulls: true,
    },
    Case {
        name: "keys repeated on both sides",
        left: &[("k", INT, &["7", "8", "8", "7"])],
        right: &[("k", INT, &["8", "7", "9", "7", "8"])],
        on: &["k"],
        join_nulls: false,
    },
    Case {
        name: "two columns, in another order on the right",
        left: &[("k", INT, &["1", "1", "2"]), ("v", TEXT, &["a", "b", "a"])],
        right: &[("v", TEXT, &["b", "a", "c"]), ("k", INT, &["1", "2", "1"])],
        on: &["k", "v"],
        join_nulls: false,
    },
    Case {
        name: "one null of two cells",
        left: &[("k", INT, &["1", "1"]), ("v", TEXT, &["-", "a"])],
        right: &[("k", INT, &["1", "1"]), ("v", TEXT, &["-", "-"])],
        on: &["k", "v"],
        join_nulls: true,
    },
    Case {
        name: "no left row",
        left: &[("k", INT, &[])],
        right: &[("k", INT, &["1", "2"])],
        on: &["k"],
        join_nulls: false,
    },
    Case {
        name: "no right row",
        left: &[("k", INT, &["1", "2"])],
        right: &[("k", INT, &[])],
        on: &["k"],
        join_nulls: false,
    },
    Case {
        name: "no row",
        left: &[("k", INT, &[])],
        right: &[("k", INT, &[])],
        on: &["k"],
        join_nulls: false,
    },
    Case {
        name: "Int32",
        left: &[("k", DataType::Int32, &["-1", "2"])],
        right: &[("k", DataType::Int32, &["2", "-1"])],
        on: &["k"],
        join_nulls: false,
    },
    Case {
        name: "UInt32",
        left: &[("k", DataType::UInt32, &["1", "2"])],
        right: &[("k", DataType::UInt32, &["3", "1"])],
        on: &["k"],
        join_nulls: false,
    },
    Case {
        name: "UInt64",
        left: &[("k", DataType::UInt64, &["18446744073709551615", "0"])],
        right: &[("k", DataType::UInt64, &["1", "18446744073709551615"])],
        on: &["k"],
        join_nulls: false,
    },
    Case {
        name: "Boolean",
        left: &[("k", DataType::Boolean, &["true", "false"])],
        right: &[("k", DataType::Boolean, &["false", "false"])],
        on: &["k"],
        join_nulls: false,
    },
    Case {
        name: "String",
        left: &[("k", TEXT, &["ab", "a", ""])],
        right: &[("k", TEXT, &["", "ab"])],
        on: &["k"],
        join_nulls: false,
    },
    Case {
        name: "Binary",
        left: &[("k", DataType::Binary, &["00", "0000"])],
        right: &[("k", DataType::Binary, &["0000", "01"])],
        on: &["k"],
        join_nulls: false,
    },
    Case {
        name: "Int128",
        left: &[(
            "k",
            DataType::Int128,
            &["-170141183460469231731687303715884105728"],
        )],
        right: &[(
            "k",
            DataType::Int128,
            &["0", "-170141183460469231731687303715884105728"],
        )],
        on: &["k"],
        join_nulls: false,
    },
    Case {
        name: "a name that the left table lacks, before types that differ",
        left: &[("k", INT, &["1"])],
        right: &[("k", TEXT, &["a"])],
        on: &["k", "v"],
        join_nulls: false,
    },
    Case {
        name: "a name that the right table lacks",
        left: &[("k", INT, &["1"]), ("v", INT, &["1"])],
        right: &[("k", TEXT, &["a"])],
        on: &["k", "v"],
        join_nulls: false,
    },
    Case {
        name: "types that differ, before a name that stands twice",
        left: &[("k", INT, &["1"])],
        right: &[("k", TEXT, &["a"])],
        on: &["k", "k"],
        join_nulls: false,
    },
    Case {
        name: "a name that stands twice",
        left: &[("k", INT, &["1"])],
        right: &[("k", INT, &["1"])],
        on: &["k", "k"],
        join_nulls: false,
    },
];
