use ssap_items::{Tag, TagName, Tags};
use std::test::Fail;

#[test]
fn tags_are_found_by_their_whole_names(rt: HostRuntime) -> Result<(), Fail> {
    let tags = Tags::none()
        .with(Tag::Start(TagName::Result))
        .with(Tag::Finish(TagName::SsapMessage));
    assert_eq!(rt; tags.find(b"result"), Some(Tag::Start(TagName::Result)));
    assert_eq!(rt; tags.find(b"results"), None);
    assert!(rt; tags.viable(b"/SSAP_m"));
    assert!(rt; !tags.viable(b"results"));
    assert!(rt; tags.contains(Tag::Finish(TagName::SsapMessage)));
    assert_eq!(rt; TagName::Bnode.as_bytes(), b"bnode".as_slice());
    Ok(())
}
