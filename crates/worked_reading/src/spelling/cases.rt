//! Jobs whose members stand in any order, with spaces between them.

/// What a job shows, its version, and its frames and its plan as members.
pub(crate) struct Case {
    pub(crate) shows: &'static str,
    pub(crate) version: &'static str,
    pub(crate) frames: &'static str,
    pub(crate) plan: &'static str,
}

/// A frame of one empty column.
const EMPTY: &str =
    "\"frames\":[{\"columns\":[{\"values\":[],\"type\":\"Int64\",\"name\":\"k\"}]}]";

pub(crate) const CASES: &[Case] = &[
    Case {
        shows: "nothing but an empty frame",
        version: "1",
        frames: EMPTY,
        plan: "\"root\":0,\"plan\":[]",
    },
    Case {
        shows: "cells of each type, and nulls",
        version: "2",
        frames: "\"frames\" : [{\"columns\":[
{\"type\":\"Int32\",\"name\":\"i\",\"values\":[-2147483648,null]},
{\"type\":\"Int64\",\"name\":\"l\",\"values\":[9223372036854775807,-1]},
{\"type\":\"UInt32\",\"name\":\"u\",\"values\":[null,4294967295]},
{\"type\":\"UInt64\",\"name\":\"w\",\"values\":[18446744073709551615,0]},
{\"type\":\"Boolean\",\"name\":\"b\",\"values\":[true,null]},
{\"type\":\"String\",\"name\":\"s\",\"values\":[\"q\\\"\\\\\\n\\u0001\\u00e9\\/\",null]},
{\"type\":\"Binary\",\"name\":\"h\",\"values\":[\"00ff\",\"\"]},
{\"type\":\"Int128\",\"name\":\"g\",\"values\":[\"-170141183460469231731687303715884105728\",null]}]}]",
        plan: "\"plan\":[{\"frame\":0,\"node\":\"DataFrameScan\",\"columns\":null}],\"root\":0",
    },
    Case {
        shows: "columns of more cells than a short array has",
        version: "1",
        frames: "\"frames\":[{\"columns\":[
{\"name\":\"n\",\"type\":\"Int64\",\"values\":[1,2,3,4,5,6,7,8,9,10,11,12,13,14,15,16,17,-18]},
{\"name\":\"w\",\"type\":\"UInt64\",\"values\":[0,9223372036854775808,null,0,0,0,0,0,0,0,0,0,0,0,0,0,0,1]},
{\"name\":\"t\",\"type\":\"Boolean\",\"values\":[true,false,null,true,true,true,true,true,true,true,true,true,true,true,true,true,true,false]}]}]",
        plan: "\"plan\":[],\"root\":4294967295",
    },
    Case {
        shows: "each kind of node",
        version: "1",
        frames: EMPTY,
        plan: "\"plan\":[{\"node\":\"DataFrameScan\",\"frame\":0,\"columns\":[\"k\",\"x\"]},
{\"predicate\":{\"col\":\"k\"},\"node\":\"Filter\",\"input\":0},
{\"node\":\"SimpleProjection\",\"input\":1,\"columns\":[]},
{\"node\":\"Select\",\"input\":2,\"exprs\":[{\"name\":\"a\",\"expr\":{\"col\":\"b\"}},{\"name\":\"c\",\"expr\":{\"col\":\"d\"}}]},
{\"node\":\"HStack\",\"input\":3,\"exprs\":[]},
{\"node\":\"Unpivot\",\"input\":4,\"on\":[\"a\"],\"index\":[\"id\",\"n\"],\"variable\":\"p\",\"value\":\"q\"},
{\"node\":\"Rename\",\"input\":5,\"pairs\":[{\"new\":\"y\",\"existing\":\"x\"}]},
{\"node\":\"Union\",\"inputs\":[6,0]},
{\"node\":\"Join\",\"left\":7,\"right\":1,\"left_on\":[{\"col\":\"k\"}],\"right_on\":[{\"col\":\"m\"},{\"col\":\"n\"}],\"how\":\"full\",\"join_nulls\":true,\"coalesce\":\"KeepColumns\",\"suffix\":\"_r\",\"rows_left\":[null,7],\"rows_right\":[18446744073709551615,0]},
{\"node\":\"Sort\",\"input\":8,\"by\":[\"k\",\"m\"],\"descending\":[true,false],\"nulls_last\":[false],\"slice\":[-3,18446744073709551615]},
{\"node\":\"Sort\",\"input\":9,\"by\":[],\"descending\":[],\"nulls_last\":[],\"slice\":null}],\"root\":10",
    },
    Case {
        shows: "each kind of join, and each way to coalesce",
        version: "1",
        frames: EMPTY,
        plan: "\"plan\":[
{\"node\":\"Join\",\"left\":0,\"right\":1,\"left_on\":[],\"right_on\":[],\"how\":\"inner\",\"join_nulls\":false,\"coalesce\":\"JoinSpecific\",\"suffix\":\"\",\"rows_left\":[null,0],\"rows_right\":[null,0]},
{\"node\":\"Join\",\"left\":0,\"right\":1,\"left_on\":[],\"right_on\":[],\"how\":\"left\",\"join_nulls\":false,\"coalesce\":\"CoalesceColumns\",\"suffix\":\"\",\"rows_left\":[null,0],\"rows_right\":[null,0]},
{\"node\":\"Join\",\"left\":0,\"right\":1,\"left_on\":[],\"right_on\":[],\"how\":\"cross\",\"join_nulls\":false,\"coalesce\":\"JoinSpecific\",\"suffix\":\"\",\"rows_left\":[null,0],\"rows_right\":[null,0]},
{\"node\":\"Join\",\"left\":0,\"right\":1,\"left_on\":[],\"right_on\":[],\"how\":\"semi\",\"join_nulls\":false,\"coalesce\":\"JoinSpecific\",\"suffix\":\"\",\"rows_left\":[null,0],\"rows_right\":[null,0]},
{\"node\":\"Join\",\"left\":0,\"right\":1,\"left_on\":[],\"right_on\":[],\"how\":\"anti\",\"join_nulls\":false,\"coalesce\":\"JoinSpecific\",\"suffix\":\"\",\"rows_left\":[null,0],\"rows_right\":[null,0]}],\"root\":0",
    },
    Case {
        shows: "each kind of expression",
        version: "2",
        frames: EMPTY,
        plan: "\"plan\":[{\"node\":\"Select\",\"input\":0,\"exprs\":[
{\"name\":\"1\",\"expr\":{\"add\":[{\"col\":\"a\"},{\"sub\":[{\"col\":\"b\"},{\"mul\":[{\"col\":\"c\"},{\"col\":\"d\"}]}]}]}},
{\"name\":\"2\",\"expr\":{\"and\":[{\"or\":[{\"eq\":[{\"col\":\"a\"},{\"col\":\"b\"}]},{\"not_eq\":[{\"col\":\"a\"},{\"col\":\"b\"}]}]},{\"not\":{\"is_null\":{\"col\":\"a\"}}}]}},
{\"name\":\"3\",\"expr\":{\"lt\":[{\"lit\":{\"value\":-5,\"type\":\"Int32\"}},{\"lit\":{\"value\":5,\"type\":\"Int64\"}}]}},
{\"name\":\"4\",\"expr\":{\"lt_eq\":[{\"lit\":{\"value\":5,\"type\":\"UInt32\"}},{\"lit\":{\"value\":18446744073709551615,\"type\":\"UInt64\"}}]}},
{\"name\":\"5\",\"expr\":{\"gt\":[{\"lit\":{\"value\":\"\\t\",\"type\":\"String\"}},{\"lit\":{\"value\":\"0a\",\"type\":\"Binary\"}}]}},
{\"name\":\"6\",\"expr\":{\"gt_eq\":[{\"lit\":{\"value\":\"-7\",\"type\":\"Int128\"}},{\"lit\":{\"value\":null,\"type\":\"Int128\"}}]}},
{\"name\":\"7\",\"expr\":{\"is_not_null\":{\"lit\":{\"value\":true,\"type\":\"Boolean\"}}}}]}],\"root\":0",
    },
];
