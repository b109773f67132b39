//! The technology that serves where no file is given.

/// Technology M: poly and diffusion on one plane, metal on another, and four rules.
pub const TECHNOLOGY_M: &[u8] = b"tech
  M
end
planes
  active,a
  metal1
end
types
  active poly,p
  active ndiff,nd
  metal1 m1
end
drc
  width poly 2 \"poly width\"
  spacing poly poly 3 touching_ok \"poly spacing\"
  spacing poly ndiff 1 touching_illegal \"poly to ndiff\"
  width m1 3 \"m1 width\"
end
";
