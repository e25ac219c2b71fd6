//! Looks up a header field by its name, ignoring ASCII case. A field that comes twice is reported as such, so that no
//! caller picks one of the values silently.

ghost use Rattle.std.specs.Prelude.{◌≡◌, ◌≤◌, ◌++◌, ◌∷◌, [], ℕ, List, length, map, All};
ghost use Rattle.httparse.specs.Spans.{header_bytes, IsHeaderWithin};
ghost use Rattle.plant_wire_head.specs.Fields.{is_named, values_named, IsLookup};

use httparse::spans::HeaderSpan;

/// The value of a field, which may be missing or come several times.
#[derive(Clone, Copy, Debug)]
pub enum Lookup<'b> {
    Missing,
    Once(&'b [u8]),
    Repeated,
}

fn has_name(buf: &[u8], header: &HeaderSpan, name: &[u8]) -> bool
    requires { IsHeaderWithin (length buf.now) header.now }
    ensures { result ≡ is_named name.now (header_bytes buf.now header.now) }
{
    header.name.of(buf).eq_ignore_ascii_case(name)
}

fn value_of<'b>(buf: &'b [u8], header: &HeaderSpan) -> &'b [u8]
    requires { IsHeaderWithin (length buf.now) header.now }
    ensures { result.now ≡ (header_bytes buf.now header.now).1 }
{
    header.value.of(buf)
}

impl<'b> Lookup<'b> {
    fn and(self, value: &'b [u8]) -> Lookup<'b>
        ensures { (values : List (List ℕ)) → IsLookup values self.entry
            → IsLookup (values ++ value.entry.now ∷ []) result }
    {
        match self {
            Lookup::Missing => Lookup::Once(value),
            Lookup::Once(_) => Lookup::Repeated,
            Lookup::Repeated => Lookup::Repeated,
        }
    }
}

/// The value of the field with this name, ignoring ASCII case.
pub fn field<'b>(buf: &'b [u8], headers: &[HeaderSpan], name: &[u8]) -> Lookup<'b>
    requires { All (IsHeaderWithin (length buf.now)) headers.now }
    ensures { IsLookup (values_named name.now (map (header_bytes buf.now) headers.now)) result }
{
    let mut found = Lookup::Missing;
    for header in headers {
        if has_name(buf, header, name) {
            found = found.and(value_of(buf, header));
        }
    }
    found
}
