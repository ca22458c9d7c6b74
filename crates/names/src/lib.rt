// Names in text fields of a fixed length: what is left of the field is zeros. Document 02, No. 8: "by its name, zeros filling it".
#![tactic(auto)]

ghost use Rattle.std.specs.Prelude.{◌≡◌};
ghost use Rattle.names.specs.Names.{is_named};

// Whether the field holds the name and then zeros to its end. A name that is longer than the field is not there.
pub fn is_named(field: &[u8], name: &[u8]) -> bool
    ensures { result ≡ is_named field.now name.now }
{
    let Some(rest) = field.strip_prefix(name) else {
        return false;
    };
    rest.iter().all(|b| *b == 0)
}
