//! The scripts that the tests read, and what is to come of each.

/// A script with every kind of object and every key.
pub(crate) fn whole() -> &'static str {
    concat!(
        r#"{"version":2,"properties":[{"name":"x","kind":"u8","at":16},{"name":"y","kind":"i16","at":2046}],"#,
        r#""hash":["x",{"from":3,"to":9}],"#,
        r#""hold":2,"tolerance":7,"inputs":[{"when":[{"property":"x","op":"<","other":"y"}],"#,
        r#""pads":["U.......",".......A"],"stop":true},{"pads":["U.......","...R...."]}],"#,
        r#""rules":[{"name":"go","when":[{"property":"y","op":">=","value":-5}],"#,
        r#""win":true,"fail":false,"checkpoint":true,"reward":-3,"#,
        r#""weights":[{"property":"x","weight":2}],"also":["end"]},{"name":"end"}],"#,
        r#""bucket":["y","x"],"quota":9}"#,
    )
}

/// Seven rules, of which the first names the second and the second the third.
pub(crate) fn judged() -> &'static str {
    concat!(
        r#"{"version":1,"properties":[{"name":"x","at":16,"kind":"u8"},{"name":"t","at":17,"kind":"i8"}],"#,
        r#""hash":[{"from":3,"to":7}],"tolerance":5,"#,
        r#""inputs":[{"when":[{"property":"x","op":"==","value":1}],"#,
        r#""pads":["...R....","........","...R...."],"stop":true},{"pads":["U.......","........"]}],"#,
        r#""rules":[{"name":"a","when":[{"property":"x","op":"==","value":1}],"reward":10,"#,
        r#""weights":[{"property":"t","weight":3}],"also":["b"]},"#,
        r#"{"name":"b","when":[{"property":"x","op":"==","value":2}],"#,
        r#""win":true,"checkpoint":true,"also":["c"]},"#,
        r#"{"name":"c","when":[{"property":"x","op":"==","value":2},"#,
        r#"{"property":"t","op":"<","value":-1}],"fail":true},"#,
        r#"{"name":"d","when":[{"property":"x","op":">","value":2}]},"#,
        r#"{"name":"e","when":[{"property":"x","op":">","value":2}]},"#,
        r#"{"name":"f","when":[{"property":"x","op":">","value":2}]},"#,
        r#"{"name":"g","when":[{"property":"x","op":">","value":2}]}]}"#,
    )
}

/// Edits of the whole script's own keys but its lists: a piece, what stands in its place, and the answer.
pub(crate) fn edited_heads() -> &'static str {
    r#""version":2, =>  => Missing(version)
"version":2 => "version":"2" => WrongKind(version)
"version":2 => "version":0 => Version(0)
"version":2 => "version":3 => Version(3)
"version":2 => "version":2.0 => WrongKind(version)
"version":2 => "version":-0 => WrongKind(version)
"version":2 => "version":9223372036854775808 => WrongKind(version)
"version":2 => "version":-9223372036854775808 => Version(-9223372036854775808)
"version":2 => "version":1e999 => NotJson
"version":2 => "version":3,"version":2 => ok
"version":2 => "version":2,"version":3 => Version(3)
"version":2 => "version":2,"b":0,"a":0 => UnknownKey(a)
"version":2 => "a":0,"version":2,"b":0 => UnknownKey(a)
"version":2 => "version":3,"a":0 => Version(3)
"version":2 => "version":1 => UnknownKey(bucket)
"hold":2 => "hold":0 => OutOfRange(hold, 0)
"hold":2 => "hold":61 => OutOfRange(hold, 61)
"hold":2 => "hold":true => WrongKind(hold)
"hold":2, =>  => ok
"tolerance":7 => "tolerance":-1 => OutOfRange(tolerance, -1)
"tolerance":7 => "tolerance":1048577 => OutOfRange(tolerance, 1048577)
"tolerance":7 => "tolerance":null => WrongKind(tolerance)
"bucket":["y","x"], =>  => ok
"bucket":["y","x"] => "bucket":"x" => WrongKind(bucket)
"bucket":["y" => "bucket":[1 => WrongKind(bucket)
"bucket":["y" => "bucket":["z" => UnknownName(z)
"bucket":["y" => "bucket":["z",1 => UnknownName(z)
"bucket":["y" => "bucket":["x","x","y" => ok
"bucket":["y","x"],"quota":9 => "bucket":["z"],"quota":0 => UnknownName(z)
,"quota":9 =>  => ok
"quota":9 => "quota":0 => OutOfRange(quota, 0)
"quota":9 => "quota":1048576 => ok
"quota":9 => "quota":1048577 => OutOfRange(quota, 1048577)
"quota":9 => "quota":null => WrongKind(quota)"#
}

/// Edits of its properties and its hash, in the same form.
pub(crate) fn edited_properties() -> &'static str {
    r#""properties":[ => "properties":[7, => WrongKind(properties)
"name":"x", =>  => Missing(name)
"name":"x" => "name":1 => WrongKind(name)
"name":"y" => "name":"x" => TwiceNamed(x)
"name":"y","kind":"i16" => "name":"x","kind":"f" => TwiceNamed(x)
"kind":"u8", =>  => Missing(kind)
"kind":"u8" => "kind":"f32" => UnknownName(f32)
"kind":"u8" => "kind":8 => WrongKind(kind)
,"at":16 =>  => Missing(at)
"at":16 => "at":-1 => OutOfRange(at, -1)
"at":16 => "at":2048 => OutOfRange(at, 2048)
"at":16 => "at":2047 => ok
"at":2046 => "at":2047 => OutOfRange(at, 2047)
"at":16 => "at":16,"q":1,"b":2 => UnknownKey(b)
"hash":["x" => "hash":[5 => WrongKind(hash)
"hash":["x" => "hash":["z" => UnknownName(z)
"hash":["x",{"from":3,"to":9}] => "hash":"x" => WrongKind(hash)
"from":3, =>  => Missing(from)
,"to":9 =>  => Missing(to)
"from":3 => "from":"3" => WrongKind(from)
"from":3 => "from":-1 => OutOfRange(from, -1)
"from":3 => "from":2048 => OutOfRange(from, 2048)
"to":9 => "to":2 => OutOfRange(to, 2)
"to":9 => "to":2048 => OutOfRange(to, 2048)
"to":9 => "to":9,"z":0 => UnknownKey(z)"#
}

/// Edits of its input sets and of conditions, in the same form.
pub(crate) fn edited_inputs() -> &'static str {
    r#""property":"x","op":"<" => "op":"<" => Missing(property)
"property":"x","op":"<" => "property":"z","op":"<" => UnknownName(z)
"op":"<", =>  => Missing(op)
"op":"<" => "op":"=<" => UnknownName(=<)
"op":"<" => "op":2 => WrongKind(op)
"other":"y" => "other":"z" => UnknownName(z)
"other":"y" => "other":null => WrongKind(other)
"other":"y" => "other":null,"value":1 => UnknownKey(value)
,"other":"y" =>  => Missing(value)
"value":-5 => "value":-65537 => OutOfRange(value, -65537)
"value":-5 => "value":65536 => OutOfRange(value, 65536)
"value":-5 => "value":1e2 => WrongKind(value)
"pads":["U.......",".......A"], =>  => Missing(pads)
".......A" => 7 => WrongKind(pads)
".......A" => ".......a" => UnknownName(.......a)
".......A" => "......A" => UnknownName(......A)
"stop":true => "stop":1 => WrongKind(stop)
"stop":true => "stop":true,"halt":1 => UnknownKey(halt)"#
}

/// Edits of its rules, in the same form.
pub(crate) fn edited_rules() -> &'static str {
    r#""name":"go", =>  => Missing(name)
"name":"end" => "name":"go" => TwiceNamed(go)
"name":"end" => "name":"go","win":1 => TwiceNamed(go)
"win":true => "win":"yes" => WrongKind(win)
"fail":false => "fail":null => WrongKind(fail)
"checkpoint":true => "checkpoint":[] => WrongKind(checkpoint)
"reward":-3 => "reward":-1073741825 => OutOfRange(reward, -1073741825)
"reward":-3 => "reward":1073741825 => OutOfRange(reward, 1073741825)
"reward":-3 => "reward":"3" => WrongKind(reward)
{"property":"x","weight":2} => [] => WrongKind(weights)
{"property":"x","weight":2} => {"weight":2} => Missing(property)
"weight":2 => "weight":1048577 => OutOfRange(weight, 1048577)
"weight":2 => "weight":-1048577 => OutOfRange(weight, -1048577)
,"weight":2 =>  => Missing(weight)
"also":["end"] => "also":["nobody"] => UnknownName(nobody)
"also":["end"] => "also":[1] => WrongKind(also)
"also":["end"] => "also":"end" => WrongKind(also)
"name":"end" => "name":"end","is":0 => UnknownKey(is)
"rules":[ => "rules":["", => WrongKind(rules)
"also":["end"]},{"name":"end"}],"bucket":["y" => "also":["nobody"]},{"name":"end"}],"bucket":["z" => UnknownName(nobody)"#
}

/// Whole texts, and the answer to each.
pub(crate) fn texts() -> &'static str {
    r#" => NotJson
{ => NotJson
[1] => WrongKind()
{} => Missing(version)
{"version":1} => Missing(properties)
{"version":1,"properties":[]} => Missing(hash)
{"version":1,"properties":[],"hash":[]} => Missing(inputs)
{"version":1,"properties":[],"hash":[],"inputs":[]} => Missing(rules)
{"version":1,"properties":[],"hash":[],"inputs":[],"rules":[]} => ok
{"version":1,"properties":[],"hash":[],"inputs":[],"rules":[],"quota":1} => UnknownKey(quota)
{"version":1,"properties":[],"hash":[],"inputs":[],"rules":[],"quota":1,"bucket":[]} => UnknownKey(bucket)"#
}

/// The beginning of a list in the whole script, how many zeros are put there, and the answer. A zero is of a wrong
/// kind, which is seen only where the list is not too long.
pub(crate) fn limits() -> &'static str {
    r#""properties":[ => 62 => WrongKind(properties)
"properties":[ => 63 => TooMany(properties, 64)
"hash":[ => 62 => WrongKind(hash)
"hash":[ => 63 => TooMany(hash, 64)
"inputs":[ => 30 => WrongKind(inputs)
"inputs":[ => 31 => TooMany(inputs, 32)
"rules":[ => 126 => WrongKind(rules)
"rules":[ => 127 => TooMany(rules, 128)
"when":[ => 15 => WrongKind(when)
"when":[ => 16 => TooMany(when, 16)
"pads":[ => 254 => WrongKind(pads)
"pads":[ => 255 => TooMany(pads, 256)
"weights":[ => 3 => WrongKind(weights)
"weights":[ => 4 => TooMany(weights, 4)
"also":[ => 127 => WrongKind(also)
"also":[ => 128 => TooMany(also, 128)
"bucket":[ => 2 => WrongKind(bucket)
"bucket":[ => 3 => TooMany(bucket, 4)"#
}
