//! The reports of the rows of `classes`.

/// A bound just above a top.
pub(crate) const NEAR_REPORT: &str = "report: \"classes\"
packages: 2
clusters:
  - cluster: \"a=1\"
    source: \"a\"
    top: \"1\"
    members:
      - \"a=1\"
    classes:
      - class: \">> 1, << 1-0A\"
        example: \"1-0A~~~~\"
      - class: \"= 1-0A\"
        example: \"1-0A\"
      - class: \">> 1-0A\"
        example: \"1-0A0A\"
  - cluster: \"p=1\"
    source: \"p\"
    top: \"1\"
    members:
      - \"p=1\"
    classes:
      - class: \">> 1\"
        example: \"1-0A\"
names: []
";

/// A new name with a bound.
pub(crate) const NEW_NAME_REPORT: &str = "report: \"classes\"
packages: 1
clusters:
  - cluster: \"p=1\"
    source: \"p\"
    top: \"1\"
    members:
      - \"p=1\"
    classes:
      - class: \">> 1\"
        example: \"1-0A\"
names:
  - name: \"foo\"
    classes:
      - class: \"<< 1\"
        example: \"~~\"
      - class: \"= 1\"
        example: \"1\"
      - class: \">> 1\"
        example: \"1-0A\"
";

/// A new name without one, of the newest version.
pub(crate) const ANY_REPORT: &str = "report: \"classes\"
packages: 1
clusters:
  - cluster: \"p=2\"
    source: \"p\"
    top: \"2\"
    members:
      - \"p=2\"
    classes:
      - class: \">> 2\"
        example: \"2-0A\"
names:
  - name: \"foo\"
    classes:
      - class: \"any\"
        example: \"0\"
";

/// The same of an only version.
pub(crate) const ALONE_REPORT: &str = "report: \"classes\"
packages: 1
clusters:
  - cluster: \"p=1\"
    source: \"p\"
    top: \"1\"
    members:
      - \"p=1\"
    classes:
      - class: \">> 1\"
        example: \"1-0A\"
names:
  - name: \"foo\"
    classes:
      - class: \"any\"
        example: \"0\"
";

/// A cluster of two members.
pub(crate) const TOGETHER_REPORT: &str = "report: \"classes\"
packages: 2
clusters:
  - cluster: \"a=1\"
    source: \"a\"
    top: \"1+b1\"
    members:
      - \"a=1\"
      - \"b=1+b1\"
    classes:
      - class: \">> 1+b1, << 2\"
        example: \"1+b1-0A~\"
      - class: \"= 2\"
        example: \"2\"
      - class: \">> 2\"
        example: \"2-0A\"
names: []
";

/// A stanza of an archive.
pub(crate) const PYTHON_REPORT: &str = "report: \"classes\"
packages: 1
clusters:
  - cluster: \"python3=3.11.2-1+b1\"
    source: \"python3-defaults\"
    top: \"3.11.2-1+b1\"
    members:
      - \"python3=3.11.2-1+b1\"
    classes:
      - class: \">> 3.11.2-1+b1\"
        example: \"3.11.2-1+b1A\"
names:
  - name: \"libpython3-stdlib\"
    classes:
      - class: \"<< 3.11.2-1+b1\"
        example: \"~~~~~~~~~~~~\"
      - class: \"= 3.11.2-1+b1\"
        example: \"3.11.2-1+b1\"
      - class: \">> 3.11.2-1+b1\"
        example: \"3.11.2-1+b1A\"
  - name: \"python3-minimal\"
    classes:
      - class: \"<< 3.11.2-1+b1\"
        example: \"~~~~~~~~~~~~\"
      - class: \"= 3.11.2-1+b1\"
        example: \"3.11.2-1+b1\"
      - class: \">> 3.11.2-1+b1\"
        example: \"3.11.2-1+b1A\"
  - name: \"python3.11\"
    classes:
      - class: \"<< 3.11.2-1~\"
        example: \"~~~~~~~~~~\"
      - class: \"= 3.11.2-1~\"
        example: \"3.11.2-1~\"
      - class: \">> 3.11.2-1~\"
        example: \"3.11.2-1~0A\"
";

/// One package, and no new name.
pub(crate) const NO_NAMES_REPORT: &str = "report: \"classes\"
packages: 1
clusters:
  - cluster: \"p=1\"
    source: \"p\"
    top: \"1\"
    members:
      - \"p=1\"
    classes:
      - class: \">> 1\"
        example: \"1-0A\"
names: []
";

/// One package, and a new name that is cut at 2.
pub(crate) const CUT_REPORT: &str = "report: \"classes\"
packages: 1
clusters:
  - cluster: \"p=1\"
    source: \"p\"
    top: \"1\"
    members:
      - \"p=1\"
    classes:
      - class: \">> 1\"
        example: \"1-0A\"
names:
  - name: \"foo\"
    classes:
      - class: \"<< 2\"
        example: \"~~\"
      - class: \"= 2\"
        example: \"2\"
      - class: \">> 2\"
        example: \"2-0A\"
";
