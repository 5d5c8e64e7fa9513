//! Lines as they stand in layouts and in manifests, beside such as are left to TOML's own reader.

use crate::{header, pair, pairs};
use std::test::Fail;
use toml::map::Map;

#[test]
fn header_of_a_table(rt: HostRuntime) -> Result<(), Fail> {
    assert_eq!(rt; header("screen", "[[screen]]\nname"), Some("\nname"));
    assert_eq!(rt; header("screen", "[[ screen ]] # one"), Some(" # one"));
    assert_eq!(rt; header("screen", "[[map]]"), None);
    assert_eq!(rt; header("screen", "[screen]"), None);
    assert_eq!(rt; header("screen", "[[screen.of]]"), None);
    assert_eq!(rt; header("screen", "[[screen] ]"), None);
    assert_eq!(rt; header("screen", "[[screen]] name"), None);
    Ok(())
}

#[test]
fn pair_of_a_text(rt: HostRuntime) -> Result<(), Fail> {
    let read = pair(rt.alloc(), "name = \"A B\" # a name\nrow = 2")?;
    assert!(rt; read.is_some());
    if let Some(((key, value), rest)) = read {
        assert_eq!(rt; key, "name");
        assert_eq!(rt; value.as_str(), Some("A B"));
        assert_eq!(rt; rest, " # a name\nrow = 2");
    }
    Ok(())
}

#[test]
fn pair_of_a_number(rt: HostRuntime) -> Result<(), Fail> {
    let read = pair(rt.alloc(), "row=-12")?;
    assert!(rt; read.is_some());
    if let Some(((key, value), rest)) = read {
        assert_eq!(rt; key, "row");
        assert_eq!(rt; value.as_integer(), Some(-12));
        assert_eq!(rt; rest, "");
    }
    Ok(())
}

#[test]
fn other_lines(rt: HostRuntime) -> Result<(), Fail> {
    let alloc = rt.alloc();
    assert!(rt; pair(alloc, "[[screen]]")?.is_none());
    assert!(rt; pair(alloc, "a.b = 1")?.is_none());
    assert!(rt; pair(alloc, "\"a\" = 1")?.is_none());
    assert!(rt; pair(alloc, "a = [1]")?.is_none());
    assert!(rt; pair(alloc, "a = {}")?.is_none());
    assert!(rt; pair(alloc, "a = 1.5")?.is_none());
    assert!(rt; pair(alloc, "a = 1, 2")?.is_none());
    assert!(rt; pair(alloc, "a : 1")?.is_none());
    assert!(rt; pair(alloc, "a = \"")?.is_none());
    assert!(rt; pair(alloc, "")?.is_none());
    Ok(())
}

#[test]
fn pairs_up_to_a_header(rt: HostRuntime) -> Result<(), Fail> {
    let alloc = rt.alloc();
    let mut table = Map::new(alloc);
    let rest = pairs(
        alloc,
        "\n# a screen\nname = \"A\"\nrow = 2\n\n[[map]]\n",
        &mut table,
    )?;
    assert_eq!(rt; rest, Some("\n\n[[map]]\n"));
    assert_eq!(rt; table.len(), 2);
    let row = table.get("row").and_then(|value| value.as_integer());
    assert_eq!(rt; row, Some(2));
    Ok(())
}

#[test]
fn key_that_comes_twice(rt: HostRuntime) -> Result<(), Fail> {
    let alloc = rt.alloc();
    let mut table = Map::new(alloc);
    assert_eq!(rt; pairs(alloc, "a = 1\nb = 2\na = 1\n", &mut table)?, None);
    Ok(())
}
