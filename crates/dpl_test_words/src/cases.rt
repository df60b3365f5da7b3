//! Lines of words and what they ask for: each line that isn't empty and doesn't begin with `#` has words, ` => ` and what they ask for. Single spaces part the words, so two of them have an empty word between them.
//!
//! What is asked for is `usage`, the usage text, or the command, its numbers in this order, and what else was given:
//!
//! - `split`: layer, datatype, rule, overlap, corner rule, layers of both masks, tile, workers; the name of the top, layers of markers, `fewer`; `of` each of IN, OUT, CERT
//! - `check`: the same without tile and workers, and without `fewer`
//! - `demo`: seed, rows, tile, workers
//! - `batch`: datatype, rule, overlap, corner rule, layers of both masks, tile, workers; the name of the top; `of` each of IN, PREFIX; `layer` with each of the layers
//! - `edit`: layer, datatype, rule, overlap, corner rule, layers of both masks, tile; the name of the top; `of` each of IN, EDITS, OUT, CERT

/// Of `split`: options and names, ranges, what is missing, given twice or not known.
pub const SPLITS: &str = "
dpl split --layer 1 --rule 30 --overlap 10 i o c => split 1 0 30 10 30 101 102 4096 4 of i of o of c
# behind `=`, and after or between the names
dpl split i o c --layer=1 --rule=30 --overlap=10 => split 1 0 30 10 30 101 102 4096 4 of i of o of c
dpl split i --layer 1 o --rule 30 c --overlap 10 => split 1 0 30 10 30 101 102 4096 4 of i of o of c
# every option
dpl split --layer 2 --datatype 3 --rule 4 --overlap 5 --top T --a 6 --b 7 --tile 8 --workers 9 i o c => split 2 3 4 5 4 6 7 8 9 top=T of i of o of c
# zeros and a sign before a number; `-0` as a word of its own looks like an option
dpl split --layer=-0 --rule 30 --overlap 10 i o c => split 0 0 30 10 30 101 102 4096 4 of i of o of c
dpl split --layer -0 --rule 30 --overlap 10 i o c => usage
dpl split --layer=+010 --rule 30 --overlap 10 i o c => split 10 0 30 10 30 101 102 4096 4 of i of o of c
dpl split --layer +010 --rule 30 --overlap 10 i o c => split 10 0 30 10 30 101 102 4096 4 of i of o of c
dpl split --layer=-1 --rule 30 --overlap 10 i o c => usage
dpl split --layer=+-1 --rule 30 --overlap 10 i o c => usage
dpl split --layer= --rule 30 --overlap 10 i o c => usage
dpl split --layer=1x --rule 30 --overlap 10 i o c => usage
# the ends of the ranges
dpl split --layer=65535 --rule=1000000 --overlap=1000000 --tile=1073741824 --workers=64 i o c => split 65535 0 1000000 1000000 1000000 101 102 1073741824 64 of i of o of c
dpl split --layer=65536 --rule 30 --overlap 10 i o c => usage
dpl split --layer 1 --rule=0 --overlap 10 i o c => usage
dpl split --layer 1 --rule=1000001 --overlap 10 i o c => usage
dpl split --layer 1 --rule 30 --overlap=0 i o c => usage
dpl split --layer 1 --rule 30 --overlap 10 --tile=0 i o c => usage
dpl split --layer 1 --rule 30 --overlap 10 --tile=1073741825 i o c => usage
dpl split --layer 1 --rule 30 --overlap 10 --workers=0 i o c => usage
dpl split --layer 1 --rule 30 --overlap 10 --workers=65 i o c => usage
# what is missing, given twice or not known
 => usage
dpl => usage
dpl split => usage
dpl split --layer 1 --rule 30 i o c => usage
dpl split --layer 1 --rule 30 --overlap 10 i o => usage
dpl split --layer 1 --rule 30 --overlap 10 i o c d => usage
dpl split --layer 1 --layer 1 --rule 30 --overlap 10 i o c => usage
dpl split i o c --layer 1 --rule 30 --overlap => usage
dpl --layer 1 split --rule 30 --overlap 10 i o c => usage
dpl merge --layer 1 --rule 30 --overlap 10 i o c => usage
dpl split -l 1 --rule 30 --overlap 10 i o c => usage
dpl --help => usage
dpl split --help => usage
dpl help => usage
dpl --version => usage
# layers of the masks, and names, that are equal
dpl split --layer 1 --rule 30 --overlap 10 --a 5 --b 05 i o c => usage
dpl split --layer 1 --rule 30 --overlap 10 --b 101 i o c => usage
dpl split --layer 1 --rule 30 --overlap 10 --a 102 --b 101 i o c => split 1 0 30 10 30 102 101 4096 4 of i of o of c
dpl split --layer 1 --rule 30 --overlap 10 i i c => usage
dpl split --layer 1 --rule 30 --overlap 10 i o i => usage
dpl split --layer 1 --rule 30 --overlap 10 i o o => usage
# names that are empty, one hyphen, or begin with one
dpl split --layer 1 --rule 30 --overlap 10 --top= i o c => split 1 0 30 10 30 101 102 4096 4 top= of i of o of c
dpl split --layer 1 --rule 30 --overlap 10 --top - i o c => split 1 0 30 10 30 101 102 4096 4 top=- of i of o of c
dpl split --layer 1 --rule 30 --overlap 10  o c => split 1 0 30 10 30 101 102 4096 4 of  of o of c
dpl split --layer 1 --rule 30 --overlap 10 - o c => split 1 0 30 10 30 101 102 4096 4 of - of o of c
dpl split --layer 1 --rule 30 --overlap 10 -i o c => usage
dpl split --layer 1 --rule 30 --overlap 10 -- -i o c => split 1 0 30 10 30 101 102 4096 4 of -i of o of c
";

/// Of `check`, which has neither a tile nor workers.
pub const CHECKS: &str = "
dpl check --layer 1 --rule 30 --overlap 10 i o c => check 1 0 30 10 30 101 102 of i of o of c
dpl check --layer 2 --datatype 3 --rule 4 --overlap 5 --top T --a 6 --b 7 i o c => check 2 3 4 5 4 6 7 top=T of i of o of c
dpl check --layer 1 --rule 30 --overlap 10 --tile 64 i o c => usage
dpl check --layer 1 --rule 30 --overlap 10 i o o => usage
dpl check --layer 1 --rule 30 --overlap 10 --a 7 --b 7 i o c => usage
dpl check --layer 1 --rule 30 i o c => usage
";

/// Of corner rules. Where none is given it is the rule.
pub const CORNERS: &str = "
dpl split --layer 1 --rule 30 --overlap 10 --corner 29 i o c => split 1 0 30 10 29 101 102 4096 4 of i of o of c
dpl split --corner=1 --layer 1 --rule 30 --overlap 10 i o c => split 1 0 30 10 1 101 102 4096 4 of i of o of c
dpl split --layer 1 --rule 30 --overlap 10 --corner +030 i o c => split 1 0 30 10 30 101 102 4096 4 of i of o of c
dpl check --layer 1 --rule 30 --overlap 10 --corner 29 i o c => check 1 0 30 10 29 101 102 of i of o of c
dpl split --layer 1 --rule 30 --overlap 10 --corner 31 i o c => usage
dpl check --layer 1 --rule 30 --overlap 10 --corner 31 i o c => usage
dpl split --layer 1 --rule 30 --overlap 10 --corner 0 i o c => usage
dpl split --layer 1 --rule 1000000 --overlap 10 --corner 1000001 i o c => usage
dpl split --layer 1 --rule 30 --overlap 10 --corner 29 --corner 29 i o c => usage
";

/// Of `demo`.
pub const DEMOS: &str = "
dpl demo --seed 0 --rows 1 => demo 0 1 4096 4
dpl demo --rows=+1000000 --seed=18446744073709551615 --tile 8 --workers 64 => demo 18446744073709551615 1000000 8 64
dpl demo --seed=18446744073709551616 --rows 1 => usage
dpl demo --seed=-0 --rows 1 => usage
dpl demo --seed 0 --rows=-0 => usage
dpl demo --seed 0 --rows 0 => usage
dpl demo --seed 0 --rows 1000001 => usage
dpl demo --seed 0 => usage
dpl demo --rows 1 => usage
dpl demo --seed 0 --rows 1 i => usage
dpl demo --seed 0 --rows 1 --corner 1 => usage
";

/// Of layers of markers.
pub const MARKERS: &str = "
dpl split --layer 1 --rule 30 --overlap 10 i o c => split 1 0 30 10 30 101 102 4096 4 of i of o of c
dpl split --layer 1 --rule 30 --overlap 10 --mark-a 0 i o c => split 1 0 30 10 30 101 102 4096 4 mark-a=0 of i of o of c
dpl split --layer 1 --rule 30 --overlap 10 --mark-b 65535 i o c => split 1 0 30 10 30 101 102 4096 4 mark-b=65535 of i of o of c
# One layer for both, and the layer itself.
dpl check --layer 1 --rule 30 --overlap 10 --mark-b 7 --mark-a 7 i o c => check 1 0 30 10 30 101 102 mark-a=7 mark-b=7 of i of o of c
dpl check --layer 1 --rule 30 --overlap 10 --mark-a=1 i o c => check 1 0 30 10 30 101 102 mark-a=1 of i of o of c
dpl split --layer 1 --rule 30 --overlap 10 --mark-a 65536 i o c => usage
dpl check --layer 1 --rule 30 --overlap 10 --mark-b -1 i o c => usage
dpl check --layer 1 --rule 30 --overlap 10 --mark-b 7 --mark-b 7 i o c => usage
dpl split --layer 1 --rule 30 --overlap 10 --mark-a i o c => usage
dpl demo --seed 1 --rows 2 --mark-a 7 => usage
";

/// Of fewer stitches.
pub const FEWER: &str = "
dpl split --layer 1 --rule 30 --overlap 10 i o c => split 1 0 30 10 30 101 102 4096 4 of i of o of c
dpl split --layer 1 --rule 30 --overlap 10 --fewer i o c => split 1 0 30 10 30 101 102 4096 4 fewer of i of o of c
# between the names, and before an option
dpl split i --fewer o c --layer 1 --rule 30 --overlap 10 => split 1 0 30 10 30 101 102 4096 4 fewer of i of o of c
# twice, with a value, and half
dpl split --layer 1 --rule 30 --overlap 10 --fewer --fewer i o c => usage
dpl split --layer 1 --rule 30 --overlap 10 --fewer=true i o c => usage
dpl split --layer 1 --rule 30 --overlap 10 --fewer= i o c => usage
dpl split --layer 1 --rule 30 --overlap 10 --fewer true i o c => usage
dpl split --layer 1 --rule 30 --overlap 10 --few i o c => usage
dpl check --layer 1 --rule 30 --overlap 10 --fewer i o c => usage
dpl demo --seed 1 --rows 2 --fewer => usage
";

/// Of `batch`.
pub const BATCHES: &str = "
dpl batch --rule 30 --overlap 10 i p 1 => batch 0 30 10 30 101 102 4096 4 of i of p layer 1
dpl batch --rule 30 --overlap 10 i p 2 1 => batch 0 30 10 30 101 102 4096 4 of i of p layer 2 layer 1
# options between and behind the layers
dpl batch i p 1 --rule 30 2 --overlap=10 3 => batch 0 30 10 30 101 102 4096 4 of i of p layer 1 layer 2 layer 3
dpl batch i p 1 2 --rule 30 --overlap 10 => batch 0 30 10 30 101 102 4096 4 of i of p layer 1 layer 2
dpl batch --rule 4 --overlap 5 --corner 3 --datatype 6 --top T --a 7 --b 8 --tile 9 --workers 10 i p 0 65535 => batch 6 4 5 3 7 8 9 10 top=T of i of p layer 0 layer 65535
dpl batch --rule 30 --overlap 10 i p +01 => batch 0 30 10 30 101 102 4096 4 of i of p layer 1
dpl batch --rule 30 --overlap 10 i p -- 1 2 => batch 0 30 10 30 101 102 4096 4 of i of p layer 1 layer 2
# no layer, or one that is none
dpl batch --rule 30 --overlap 10 i p => usage
dpl batch --rule 30 --overlap 10 i => usage
dpl batch --rule 30 --overlap 10 i p 65536 => usage
dpl batch --rule 30 --overlap 10 i p 1 x => usage
dpl batch --rule 30 --overlap 10 i p 1 -0 => usage
# a layer given twice, by its number
dpl batch --rule 30 --overlap 10 i p 1 1 => usage
dpl batch --rule 30 --overlap 10 i p 1 2 01 => usage
# layers of the masks that are equal, and a corner rule above the rule
dpl batch --rule 30 --overlap 10 --a 5 --b 5 i p 1 => usage
dpl batch --rule 30 --overlap 10 --corner 31 i p 1 => usage
# IN that is written
dpl batch --rule 30 --overlap 10 p.1.gds p 1 => usage
dpl batch --rule 30 --overlap 10 p.2.cert p 1 2 => usage
dpl batch --rule 30 --overlap 10 p.2.gds p 1 => batch 0 30 10 30 101 102 4096 4 of p.2.gds of p layer 1
dpl batch --rule 30 --overlap 10 p.01.gds p 1 => batch 0 30 10 30 101 102 4096 4 of p.01.gds of p layer 1
dpl batch --rule 30 --overlap 10 .1.gds  1 => usage
# options that it doesn't have
dpl batch --rule 30 --overlap 10 --layer 1 i p 1 => usage
dpl batch --rule 30 --overlap 10 --mark-a 7 i p 1 => usage
dpl batch --rule 30 --overlap 10 --seed 7 i p 1 => usage
dpl batch --rule 30 --overlap 10 --fewer i p 1 => usage
";

/// Of `edit`.
pub const EDITS: &str = "
dpl edit --layer 1 --rule 30 --overlap 10 i e o c => edit 1 0 30 10 30 101 102 4096 of i of e of o of c
# behind `=`, and between the names
dpl edit i --layer=1 e --rule=30 o --overlap=10 c => edit 1 0 30 10 30 101 102 4096 of i of e of o of c
# every option
dpl edit --layer 2 --datatype 3 --rule 4 --overlap 5 --corner 3 --top T --a 6 --b 7 --tile 8 i e o c => edit 2 3 4 5 3 6 7 8 top=T of i of e of o of c
# the ends of the ranges
dpl edit --layer 0 --datatype 0 --rule 1 --overlap 1 --corner 1 --a 0 --b 1 --tile 1 i e o c => edit 0 0 1 1 1 0 1 1 of i of e of o of c
dpl edit --layer 65535 --datatype 65535 --rule 1000000 --overlap 1000000 --corner 1000000 --a 65535 --b 65534 --tile 1073741824 i e o c => edit 65535 65535 1000000 1000000 1000000 65535 65534 1073741824 of i of e of o of c
dpl edit --layer 65536 --rule 30 --overlap 10 i e o c => usage
dpl edit --layer 1 --rule 0 --overlap 10 i e o c => usage
dpl edit --layer 1 --rule 1000001 --overlap 10 i e o c => usage
dpl edit --layer 1 --rule 30 --overlap 0 i e o c => usage
dpl edit --layer 1 --rule 30 --overlap 1000001 i e o c => usage
dpl edit --layer 1 --rule 30 --overlap 10 --corner 0 i e o c => usage
dpl edit --layer 1 --rule 30 --overlap 10 --datatype 65536 i e o c => usage
dpl edit --layer 1 --rule 30 --overlap 10 --a 65536 i e o c => usage
dpl edit --layer 1 --rule 30 --overlap 10 --b 65536 i e o c => usage
dpl edit --layer 1 --rule 30 --overlap 10 --tile 0 i e o c => usage
dpl edit --layer 1 --rule 30 --overlap 10 --tile 1073741825 i e o c => usage
# `-0` as a word of its own looks like an option
dpl edit --layer=-0 --rule 30 --overlap 10 i e o c => edit 0 0 30 10 30 101 102 4096 of i of e of o of c
dpl edit --layer -0 --rule 30 --overlap 10 i e o c => usage
dpl edit --layer 1 --rule 30 --overlap 10 i -0 o c => usage
dpl edit --layer 1 --rule 30 --overlap 10 -- i -0 o c => edit 1 0 30 10 30 101 102 4096 of i of -0 of o of c
# a corner rule above the rule, and layers of the masks that are equal
dpl edit --layer 1 --rule 30 --overlap 10 --corner 30 i e o c => edit 1 0 30 10 30 101 102 4096 of i of e of o of c
dpl edit --layer 1 --rule 30 --overlap 10 --corner 31 i e o c => usage
dpl edit --layer 1 --rule 30 --overlap 10 --a 5 --b 05 i e o c => usage
dpl edit --layer 1 --rule 30 --overlap 10 --b 101 i e o c => usage
# two names that are equal
dpl edit --layer 1 --rule 30 --overlap 10 i i o c => usage
dpl edit --layer 1 --rule 30 --overlap 10 i e i c => usage
dpl edit --layer 1 --rule 30 --overlap 10 i e o i => usage
dpl edit --layer 1 --rule 30 --overlap 10 i e e c => usage
dpl edit --layer 1 --rule 30 --overlap 10 i e o e => usage
dpl edit --layer 1 --rule 30 --overlap 10 i e o o => usage
# what is missing, or given twice
dpl edit --rule 30 --overlap 10 i e o c => usage
dpl edit --layer 1 --overlap 10 i e o c => usage
dpl edit --layer 1 --rule 30 i e o c => usage
dpl edit --layer 1 --rule 30 --overlap 10 i e o => usage
dpl edit --layer 1 --rule 30 --overlap 10 i e o c d => usage
dpl edit --layer 1 --rule 30 --overlap 10 --tile 8 --tile 8 i e o c => usage
# options that it doesn't have
dpl edit --layer 1 --rule 30 --overlap 10 --workers 4 i e o c => usage
dpl edit --layer 1 --rule 30 --overlap 10 --fewer i e o c => usage
dpl edit --layer 1 --rule 30 --overlap 10 --mark-a 7 i e o c => usage
dpl edit --layer 1 --rule 30 --overlap 10 --mark-b 7 i e o c => usage
";
