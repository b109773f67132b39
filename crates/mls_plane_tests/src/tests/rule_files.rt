//! Technology files with rules of a test's own.
use mls_edgerule::{Rules, compile};
use mls_tech::Tech;
use std::alloc::{AllocError, Global};
use std::test::Fail;

/// The planes and types of technology M, in front of its rules.
pub const TWO_PLANES: &str = "planes
 active
 metal1
end
types
 active poly
 active ndiff
 metal1 m1
end
";

/// A plane with one type.
pub const ONE_PLANE: &str = "planes
 p
end
types
 p q
end
";

/// The rules of a technology file.
pub fn rules_of(alloc: Global, file: &[u8]) -> Result<Rules, Fail> {
    let tech = Tech::read(alloc, file)?;
    rules_of_tech(&tech)
}

/// The rules of a technology.
fn rules_of_tech(tech: &Tech) -> Result<Rules, Fail> {
    Ok(compile(tech)?)
}

/// Adds a line to a text.
fn add_line(text: &mut String, line: &str) -> Result<(), AllocError> {
    text.push_str(line)?;
    text.push_str("\n")
}

/// The text of a technology with these planes and types, and these rule lines.
fn technology(alloc: Global, planes: &str, lines: &[&str]) -> Result<String, AllocError> {
    let mut text = String::from_str(alloc, planes)?;
    add_line(&mut text, "drc")?;
    for line in lines {
        add_line(&mut text, line)?;
    }
    add_line(&mut text, "end")?;
    Ok(text)
}

/// The rules of a technology with these planes and types, and these rule lines.
pub fn rules_of_lines(alloc: Global, planes: &str, lines: &[&str]) -> Result<Rules, Fail> {
    let text = technology(alloc, planes, lines)?;
    rules_of(alloc, text.as_bytes())
}
