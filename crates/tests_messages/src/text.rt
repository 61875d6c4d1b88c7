use ssap_text::{read_attvalue, read_text, skip_spaces};
use std::test::Fail;

/// Texts with what stands behind them, and the value and the rest that are read, or none.
const TEXTS: [(&[u8], Option<(&[u8], &[u8])>); 10] = [
    (b" on \r\n</a>", Some((b" on \r\n", b"</a>"))),
    (
        b"&lt;&gt;&amp;&quot;&apos;&#9;&#10;&#13;</a",
        Some((b"<>&\"'\t\n\r", b"</a")),
    ),
    (b"a&amp;lt;b</", Some((b"a&lt;b", b"</"))),
    (b"<![CDATA[]]></a", Some((b"", b"</a"))),
    (
        b"]]><![CDATA[]\xC3\xA9]]b<![CDATA[]]]]>&gt;]</a",
        Some((b"]]>]\xC3\xA9]]b<![CDATA[]]>]", b"</a")),
    ),
    (b"abc<a>", None),
    (b"&LT;</a", None),
    (b"<![CDATA[a]]</a", None),
    (b"a\0</a", None),
    (b"\xC3<![CDATA[\xA9]]></a", None),
];

/// The same for the values of attributes behind white space.
const VALUES: [(&[u8], Option<(&[u8], &[u8])>); 7] = [
    (
        b" \t\r\n\"it's \xC3\xA9 > ]]>\"\"",
        Some((b"it's \xC3\xA9 > ]]>", b"\"")),
    ),
    (b"'a\"&apos;b\n'", Some((b"a\"'b\n", b""))),
    (b"\"&quot;&amp;lt;\" >", Some((b"\"&lt;", b" >"))),
    (b"uri\"", None),
    (b"\"a<b\"", None),
    (b"\"<![CDATA[a]]>\"", None),
    (b"'\xEF\xBF\xBE'", None),
];

#[test]
fn texts_are_read(rt: HostRuntime) -> Result<(), Fail> {
    for (spelled, wanted) in TEXTS.iter() {
        let found = read_text(rt.alloc(), spelled)?;
        let seen = match &found {
            Some((text, rest)) => Some((text.as_bytes(), *rest)),
            None => None,
        };
        assert_eq!(rt; seen, *wanted);
    }
    Ok(())
}

#[test]
fn values_are_read(rt: HostRuntime) -> Result<(), Fail> {
    for (spelled, wanted) in VALUES.iter() {
        let found = read_attvalue(rt.alloc(), skip_spaces(spelled))?;
        let seen = match &found {
            Some((text, rest)) => Some((text.as_bytes(), *rest)),
            None => None,
        };
        assert_eq!(rt; seen, *wanted);
    }
    Ok(())
}
