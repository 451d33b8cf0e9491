//! What targets say, written by hand after OData's URL Conventions 4.01 (sections 2 and 5), RFC 9112 (section 3.2) and RFC 3986 (section 2.1).
use odata_url::Target;
use std::alloc::Global;
use std::process::Abort;
use std::test::Fail;

/// Targets, each with its segments and options or the fault after two spaces. A line that begins with `--` says what follows.
const TARGETS: &str = r#"
/  [""] []
/cities  ["cities"] []
/cities/$count  ["cities", "$count"] []
/cities/  ["cities", ""] []
//  ["", ""] []
-- an authority is dropped, whatever it is
http://h?x  [""] []
http://  [""] []
HTTP://h:80/a/b?  ["a", "b"] []
http:///a  ["a"] []
-- neither form
h/x  BadTarget
https://h/  BadTarget
*  BadTarget
  BadTarget
?x=1  BadTarget
http:/a  BadTarget
/a%20b+c  ["a b+c"] []
/%24metadata  ["$metadata"] []
/cities%281%29  ["cities(1)"] []
/%c3%A9  ["é"] []
/%2525  ["%25"] []
-- an escaped separator separates nothing
/a%2Fb%3Fc  ["a/b?c"] []
/x?$filter=a%26b%3Dc  ["x"] [(Filter, "a&b=c")]
-- a part has a broken escape before it has bytes that are not UTF-8
/a%zz  BadEscape
/%  BadEscape
/%4  BadEscape
/%FF  BadUtf8
/%FF%zz  BadEscape
/%FF/%zz  BadUtf8
/%zz/%FF  BadEscape
-- the path comes before the query
/%FF?$top=%2  BadUtf8
/x?$FILTER=Id EQ 2  ["x"] [(Filter, "Id EQ 2")]
/x?filter=Id%20eq%202  ["x"] [(Filter, "Id eq 2")]
/x?%24Top=1  ["x"] [(Top, "1")]
-- the first `=` alone parts a name from its value, the first `?` a path from its query
/x?$filter=a=b?c  ["x"] [(Filter, "a=b?c")]
/x?$filter=1+2  ["x"] [(Filter, "1+2")]
-- a part without `=` has an empty value, and an empty part is none
/x?$count  ["x"] [(Count, "")]
/x?&&$skip=1&  ["x"] [(Skip, "1")]
/x?$format=json&orderBy=a&APPLY=b&$select=c  ["x"] [(Format, "json"), (OrderBy, "a"), (Apply, "b"), (Select, "c")]
/x?$top=%2  BadEscape
/x?$top=%FF  BadUtf8
/x?$filter=Id eq 1&$filter=Id eq 1  OptionTwice
/x?$filter=Id eq 1&filter=Id eq 2  OptionTwice
/x?$filter=Id eq 1&FILTER=Id eq 2  OptionTwice
/x?$filter=1&$filter=%  BadEscape
/x?$EXPAND=y  NotServed
/x?@p=1  NotServed
-- its value is not decoded
/x?$expand=%  NotServed
/x?$foo=1  UnknownOption
/x?$  UnknownOption
/x?$$filter=1  UnknownOption
/x?$foo=%  UnknownOption
-- a custom option is skipped, its value is not decoded
/x?foo=%  ["x"] []
/x?foo=1&foo=2&$top=3  ["x"] [(Top, "3")]
/x?=5  ["x"] []
-- a name is decoded before it is known to be custom
/x?f%=1  BadEscape
/x?%FF=1  BadUtf8
-- the first fault from left to right
/x?foo=%&$foo=1&$expand=1  UnknownOption
/x?$expand=1&$foo=1  NotServed
-- other system options, with and without `$`
/x?expand=1  NotServed
/x?$expand=1  NotServed
/x?search=1  NotServed
/x?$search=1  NotServed
/x?compute=1  NotServed
/x?$compute=1  NotServed
/x?levels=1  NotServed
/x?$levels=1  NotServed
/x?skiptoken=1  NotServed
/x?$skiptoken=1  NotServed
/x?deltatoken=1  NotServed
/x?$deltatoken=1  NotServed
/x?schemaversion=1  NotServed
/x?$schemaversion=1  NotServed
/x?id=1  NotServed
/x?$id=1  NotServed
/x?index=1  NotServed
/x?$index=1  NotServed
-- the options of a query, as a client sends them
/cities?$FILTER=Id%20EQ%202  ["cities"] [(Filter, "Id EQ 2")]
/cities?filter=Id%20eq%202  ["cities"] [(Filter, "Id eq 2")]
/cities?$filter=Id%20eq%201&$filter=Id%20eq%202  OptionTwice
/cities?$filter=Id%20eq%20%23  ["cities"] [(Filter, "Id eq #")]
/cities?$expand=x  NotServed
/cities?$foo=1  UnknownOption
/cities?foo=%  ["cities"] []
/cities?$top=%2  BadEscape
/cities?$top=5  ["cities"] [(Top, "5")]
"#;

/// Targets that are no ASCII.
const WIDE_TARGETS: [(&[u8], &str); 2] = [(b"/\xC3\xA9", r#"["é"] []"#), (b"/\xFF", "BadUtf8")];

/// Returns what a target says.
fn target_text(alloc: Global, bytes: &[u8]) -> Result<String, Fail> {
    Ok(match Target::read(alloc, bytes) {
        Ok(target) => format!(in alloc; "{:?} {:?}", target.segments, target.options)?,
        Err(fault) => format!(in alloc; "{fault:?}")?,
    })
}

/// Checks what a target says.
fn check_target(rt: &(impl Abort + AllocGlobal), bytes: &[u8], want: &str) -> Result<(), Fail> {
    let found = target_text(rt.alloc(), bytes)?;
    assert!(rt; found.as_str() == want, "{bytes:?} gives {found}");
    Ok(())
}

#[test]
fn targets(rt: HostRuntime) -> Result<(), Fail> {
    let mut checked = 0usize;
    for line in TARGETS.split('\n') {
        match line.split_once("  ") {
            Some((target, want)) if !line.starts_with("--") => {
                check_target(&rt, target.as_bytes(), want)?;
                checked = checked.saturating_add(1);
            }
            Some(_) | None => {}
        }
    }
    assert_eq!(rt; checked, 85);
    for (bytes, want) in &WIDE_TARGETS {
        check_target(&rt, bytes, want)?;
    }
    Ok(())
}
