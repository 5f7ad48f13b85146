//! Requests of others that are given nothing leave no trace in what an applicant is answered: what alice
//! asks for, is given, and then sees is the same alone, beside five hundred submissions of bob, and
//! after a request of his that two experts review. `reg_cli` reads this text as the transcript `floods`.

/// The lines and their answers: of her alone, of her with a hundred submissions before each of her first
/// five lines, and of the request that is reviewed.
pub const FLOODS: &str = r#"
== alone
> 1700000000 alice-token-00001 GET /requests
< 200 []
> 1700000000 alice-token-00001 PUT /requests/a-2 {"contact":"c","kind":"code","label":"Blue","registry":"flags","value":64}
< 201 {"ask":{"contact":"c","kind":"code","label":"Blue","registry":"flags","value":64},"reference":"a-2","state":"pending"}
> 1700000000 clerk-token-00001 PUT /desk/approve/alice/a-2
< 200 {"account":"alice","ask":{"contact":"c","kind":"code","label":"Blue","registry":"flags","value":64},"given":"64","reference":"a-2","state":"approved"}
> 1700000000 alice-token-00001 GET /requests
< 200 [{"ask":{"contact":"c","kind":"code","label":"Blue","registry":"flags","value":64},"given":"64","reference":"a-2","state":"approved"}]
> 1700000000 alice-token-00001 GET /registries/flags
< 200 {"entries":[{"assignee":"alice","first":"2023-11-14","label":"Blue","status":"Assigned","value":64}],"max":255,"name":"flags","ranges":[{"hi":63,"lo":0,"note":"","treatment":"standards-action"},{"hi":191,"lo":64,"note":"","treatment":"first-come-first-served"},{"hi":223,"lo":192,"note":"","treatment":"expert-review"},{"hi":239,"lo":224,"note":"","treatment":"experimental-use"},{"hi":254,"lo":240,"note":"","treatment":"private-use"},{"hi":255,"lo":255,"note":"","treatment":"reserved"}]}
> 1700000000 alice-token-00001 GET /listings/registries/flags
< 200 Value,Description,Status,Policy,First,Expires,Assignee|0-63,,Unassigned,standards-action,,,|64,Blue,Assigned,first-come-first-served,2023-11-14,,alice|65-191,,Unassigned,first-come-first-served,,,|192-223,,Unassigned,expert-review,,,|224-239,,Experimental Use,experimental-use,,,|240-254,,Private Use,private-use,,,|255,,Reserved,,,,|

== flooded
>= 1..100 1700000000 bobby-token-00001 PUT /requests/f-# {"contact":"c","kind":"code","label":"F","registry":"flags","value":66}
<= 1..100 201 {"ask":{"contact":"c","kind":"code","label":"F","registry":"flags","value":66},"reference":"f-#","state":"pending"}
> 1700000000 alice-token-00001 GET /requests
< 200 []
>= 101..200 1700000000 bobby-token-00001 PUT /requests/f-# {"contact":"c","kind":"code","label":"F","registry":"flags","value":66}
<= 101..200 201 {"ask":{"contact":"c","kind":"code","label":"F","registry":"flags","value":66},"reference":"f-#","state":"pending"}
> 1700000000 alice-token-00001 PUT /requests/a-2 {"contact":"c","kind":"code","label":"Blue","registry":"flags","value":64}
< 201 {"ask":{"contact":"c","kind":"code","label":"Blue","registry":"flags","value":64},"reference":"a-2","state":"pending"}
>= 201..300 1700000000 bobby-token-00001 PUT /requests/f-# {"contact":"c","kind":"code","label":"F","registry":"flags","value":66}
<= 201..300 201 {"ask":{"contact":"c","kind":"code","label":"F","registry":"flags","value":66},"reference":"f-#","state":"pending"}
> 1700000000 clerk-token-00001 PUT /desk/approve/alice/a-2
< 200 {"account":"alice","ask":{"contact":"c","kind":"code","label":"Blue","registry":"flags","value":64},"given":"64","reference":"a-2","state":"approved"}
>= 301..400 1700000000 bobby-token-00001 PUT /requests/f-# {"contact":"c","kind":"code","label":"F","registry":"flags","value":66}
<= 301..400 201 {"ask":{"contact":"c","kind":"code","label":"F","registry":"flags","value":66},"reference":"f-#","state":"pending"}
> 1700000000 alice-token-00001 GET /requests
< 200 [{"ask":{"contact":"c","kind":"code","label":"Blue","registry":"flags","value":64},"given":"64","reference":"a-2","state":"approved"}]
>= 401..500 1700000000 bobby-token-00001 PUT /requests/f-# {"contact":"c","kind":"code","label":"F","registry":"flags","value":66}
<= 401..500 201 {"ask":{"contact":"c","kind":"code","label":"F","registry":"flags","value":66},"reference":"f-#","state":"pending"}
> 1700000000 alice-token-00001 GET /registries/flags
< 200 {"entries":[{"assignee":"alice","first":"2023-11-14","label":"Blue","status":"Assigned","value":64}],"max":255,"name":"flags","ranges":[{"hi":63,"lo":0,"note":"","treatment":"standards-action"},{"hi":191,"lo":64,"note":"","treatment":"first-come-first-served"},{"hi":223,"lo":192,"note":"","treatment":"expert-review"},{"hi":239,"lo":224,"note":"","treatment":"experimental-use"},{"hi":254,"lo":240,"note":"","treatment":"private-use"},{"hi":255,"lo":255,"note":"","treatment":"reserved"}]}
> 1700000000 alice-token-00001 GET /listings/registries/flags
< 200 Value,Description,Status,Policy,First,Expires,Assignee|0-63,,Unassigned,standards-action,,,|64,Blue,Assigned,first-come-first-served,2023-11-14,,alice|65-191,,Unassigned,first-come-first-served,,,|192-223,,Unassigned,expert-review,,,|224-239,,Experimental Use,experimental-use,,,|240-254,,Private Use,private-use,,,|255,,Reserved,,,,|

== reviewed
> 1700000000 bobby-token-00001 PUT /requests/h-1 {"contact":"c","kind":"code","label":"H","registry":"flags","value":200}
< 201 {"ask":{"contact":"c","kind":"code","label":"H","registry":"flags","value":200},"reference":"h-1","state":"pending"}
> 1700000000 clerk-token-00001 PUT /desk/experts/bob/h-1/xan
< 200 {"account":"bob","ask":{"contact":"c","kind":"code","label":"H","registry":"flags","value":200},"reference":"h-1","state":"pending"}
> 1700000000 clerk-token-00001 PUT /desk/experts/bob/h-1/yve
< 200 {"account":"bob","ask":{"contact":"c","kind":"code","label":"H","registry":"flags","value":200},"reference":"h-1","state":"pending"}
> 1700000000 xpert-token-00001 PUT /queue/bob/h-1 {"text":"fine","verdict":"for"}
< 200 {"account":"bob","advice":{"text":"fine","verdict":"for"},"ask":{"contact":"c","kind":"code","label":"H","registry":"flags","value":200},"reference":"h-1","state":"pending"}
> 1700000000 yolan-token-00001 PUT /queue/bob/h-1 {"text":"no","verdict":"against"}
< 200 {"account":"bob","advice":{"text":"no","verdict":"against"},"ask":{"contact":"c","kind":"code","label":"H","registry":"flags","value":200},"reference":"h-1","state":"pending"}
"#;
