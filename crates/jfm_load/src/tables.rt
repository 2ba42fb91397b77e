//! The codes that a JFM lists.

ghost use Rattle.std.specs.Prelude.{◌≡◌, IsTrue};
ghost use Rattle.jfm_load.specs.CharTypes.{class_in as class_of_code};
ghost use Rattle.jfm_load.specs.Sound.{rise};

/// What a JFM lists: a JIS code and its class.
#[derive(Clone, Copy, Debug)]
pub(crate) struct CharType {
    pub code: u16,
    pub class: u8,
}

/// Returns the class of a code, in a table of codes that rise.
pub(crate) fn class_in(types: &[CharType], code: u16) -> u8
    requires { IsTrue (rise types.now) }
    ensures { result ≡ class_of_code types.now code }
{
    match types.binary_search_by_key(&code, |t| t.code) {
        Ok(at) => types[at].class,
        Err(_) => 0,
    }
}
