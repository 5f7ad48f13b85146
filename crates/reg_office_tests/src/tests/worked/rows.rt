//! The lines of one office from its founding on, in their order, each with its answer, worked from the
//! reference. `reg_cli` reads this text as the transcript `rows`.

/// The lines, after `> `, and their answers, after `< `, in parts. A TAB is written as `|`.
pub const ROWS: &str = r#"
== grants
The first requests, and capabilities of three applicants and two experts.
> 1700000000 - GET /requests
< 401 {"error":"token"}
> 1700000000 clerk-token-00001 PUT /desk/tokens {"account":"alice","kind":"applicant","token":"alice-token-00001","until":1800000000}
< 200 {"account":"alice","kind":"applicant","until":1800000000}
> 1700000000 alice-token-00001 GET /requests
< 200 []
> 1700000000 clerk-token-00001 PUT /desk/tokens {"account":"bob","kind":"applicant","token":"bobby-token-00001","until":1800000000}
< 200 {"account":"bob","kind":"applicant","until":1800000000}
> 1700000000 clerk-token-00001 PUT /desk/tokens {"account":"carol","kind":"applicant","token":"carol-token-00001","until":1800000000}
< 200 {"account":"carol","kind":"applicant","until":1800000000}
> 1700000000 clerk-token-00001 PUT /desk/tokens {"account":"xan","kind":"expert","token":"xpert-token-00001","until":1800000000}
< 200 {"account":"xan","kind":"expert","until":1800000000}
> 1700000000 clerk-token-00001 PUT /desk/tokens {"account":"yve","kind":"expert","token":"yolan-token-00001","until":1800000000}
< 200 {"account":"yve","kind":"expert","until":1800000000}
> 1700000000 clerk-token-00001 PUT /desk/tokens {"account":"alice","kind":"applicant","token":"alice-token-00001","until":1800000000}
< 200 {"account":"alice","kind":"applicant","until":1800000000}
> 1700000000 clerk-token-00001 PUT /desk/tokens {"account":"bob","kind":"applicant","token":"alice-token-00001","until":1800000000}
< 409 {"error":"exists"}
> 1700000000 - GET /registries
< 200 []

== limits
A capability at its last second and past it, a token that has none, a command of another kind, and the first
and last moments at which the office is open.
> 1799999999 alice-token-00001 GET /requests
< 200 []
> 1800000000 alice-token-00001 GET /requests
< 401 {"error":"token"}
> 1700000000 nobody-token-0001 GET /requests
< 401 {"error":"token"}
> 1700000000 alice-token-00001 GET /queue
< 403 {"error":"kind"}
> 946684799 - GET /pool
< 503 {"error":"clock"}
> 32503680000 - GET /pool
< 503 {"error":"clock"}
> 946684800 - GET /pool
< 200 []
> 32503679999 - GET /pool
< 200 []

== registries
A registry is defined, and listed.
> 1700000000 clerk-token-00001 PUT /desk/registries/flags/255 lo,hi,treatment,note|0,63,standards-action,|64,191,first-come-first-served,|192,223,expert-review,|224,239,experimental-use,|240,254,private-use,|255,255,reserved,|
< 200 {"defined":"flags"}
> 1700000000 clerk-token-00001 PUT /desk/registries/flags/255 lo,hi,treatment,note|0,63,standards-action,|64,191,first-come-first-served,|192,223,expert-review,|224,239,experimental-use,|240,254,private-use,|255,255,reserved,|
< 200 {"defined":"flags"}
> 1700000000 - GET /registries
< 200 ["flags"]
> 1700000000 clerk-token-00001 PUT /desk/registries/flags/255 lo,hi,treatment,note|0,63,standards-action,|65,191,first-come-first-served,|192,223,expert-review,|224,239,experimental-use,|240,254,private-use,|255,255,reserved,|
< 422 {"error":"ranges","item":"gap 1"}
> 1700000000 clerk-token-00001 PUT /desk/registries/flags/254 lo,hi,treatment,note|0,63,standards-action,|64,191,first-come-first-served,|192,223,expert-review,|224,239,experimental-use,|240,254,private-use,|255,255,reserved,|
< 422 {"error":"ranges","item":"end"}
> 1700000000 clerk-token-00001 PUT /desk/registries/flags/255 lo,hi,treatment,note|0,63,standards-action,|64,191,first-come-first-served,|192,223,expert-review,|224,239,experimental-use,|240,254,private-use,|255,255,reserved,a note|
< 409 {"error":"exists"}
> 1700000000 - GET /listings/registries/flags
< 200 Value,Description,Status,Policy,First,Expires,Assignee|0-63,,Unassigned,standards-action,,,|64-191,,Unassigned,first-come-first-served,,,|192-223,,Unassigned,expert-review,,,|224-239,,Experimental Use,experimental-use,,,|240-254,,Private Use,private-use,,,|255,,Reserved,,,,|

== policies
The policies of a registry refuse asks, or want evidence.
> 1700000000 alice-token-00001 PUT /requests/a-1 {"contact":"c","kind":"code","label":"L","registry":"flags","value":255}
< 409 {"error":"policy"}
> 1700000000 alice-token-00001 PUT /requests/a-1 {"contact":"c","kind":"code","label":"L","registry":"flags","value":240}
< 409 {"error":"policy"}
> 1700000000 alice-token-00001 PUT /requests/a-1 {"contact":"c","kind":"code","label":"L","registry":"flags","value":256}
< 422 {"error":"range"}
> 1700000000 alice-token-00001 PUT /requests/a-1 {"contact":"c","kind":"code","label":"L","registry":"flag","value":5}
< 404 {"error":"registry"}
> 1700000000 alice-token-00001 PUT /requests/a-1 {"contact":"c","kind":"code","label":"L","registry":"flags","value":5}
< 422 {"error":"evidence","item":"rfc"}
> 1700000000 alice-token-00001 PUT /requests/a-1 {"contact":"c","kind":"code","label":"L","registry":"flags","rfc":{"number":9999,"stream":"independent","track":"standards"},"value":5}
< 422 {"error":"evidence","item":"stream"}
> 1700000000 alice-token-00001 PUT /requests/a-1 {"contact":"c","kind":"code","label":"L","registry":"flags","rfc":{"number":9999,"stream":"ietf","track":"informational"},"value":5}
< 422 {"error":"evidence","item":"track"}

== approvals
Two requests want one value, and the one that is approved gets it; requests of one reference, and of others.
> 1700000000 alice-token-00001 PUT /requests/a-2 {"contact":"c","kind":"code","label":"Blue","registry":"flags","value":64}
< 201 {"ask":{"contact":"c","kind":"code","label":"Blue","registry":"flags","value":64},"reference":"a-2","state":"pending"}
> 1700000000 bobby-token-00001 PUT /requests/b-1 {"contact":"c","kind":"code","label":"Red","registry":"flags","value":64}
< 201 {"ask":{"contact":"c","kind":"code","label":"Red","registry":"flags","value":64},"reference":"b-1","state":"pending"}
> 1700000000 clerk-token-00001 PUT /desk/approve/bob/b-1
< 200 {"account":"bob","ask":{"contact":"c","kind":"code","label":"Red","registry":"flags","value":64},"given":"64","reference":"b-1","state":"approved"}
> 1700000000 clerk-token-00001 PUT /desk/approve/bob/b-1
< 200 {"account":"bob","ask":{"contact":"c","kind":"code","label":"Red","registry":"flags","value":64},"given":"64","reference":"b-1","state":"approved"}
> 1700000000 clerk-token-00001 PUT /desk/approve/alice/a-2
< 409 {"error":"taken"}
> 1700000000 clerk-token-00001 GET /desk/requests
< 200 [{"account":"alice","ask":{"contact":"c","kind":"code","label":"Blue","registry":"flags","value":64},"reference":"a-2","state":"pending"},{"account":"bob","ask":{"contact":"c","kind":"code","label":"Red","registry":"flags","value":64},"given":"64","reference":"b-1","state":"approved"}]
> 1700000000 - GET /registries/flags
< 200 {"entries":[{"assignee":"bob","first":"2023-11-14","label":"Red","status":"Assigned","value":64}],"max":255,"name":"flags","ranges":[{"hi":63,"lo":0,"note":"","treatment":"standards-action"},{"hi":191,"lo":64,"note":"","treatment":"first-come-first-served"},{"hi":223,"lo":192,"note":"","treatment":"expert-review"},{"hi":239,"lo":224,"note":"","treatment":"experimental-use"},{"hi":254,"lo":240,"note":"","treatment":"private-use"},{"hi":255,"lo":255,"note":"","treatment":"reserved"}]}
> 1700000000 - GET /listings/registries/flags
< 200 Value,Description,Status,Policy,First,Expires,Assignee|0-63,,Unassigned,standards-action,,,|64,Red,Assigned,first-come-first-served,2023-11-14,,bob|65-191,,Unassigned,first-come-first-served,,,|192-223,,Unassigned,expert-review,,,|224-239,,Experimental Use,experimental-use,,,|240-254,,Private Use,private-use,,,|255,,Reserved,,,,|
> 1700000000 carol-token-00001 PUT /requests/c-1 {"contact":"c","kind":"code","label":"Z","registry":"flags","value":64}
< 409 {"error":"taken"}
> 1700000000 carol-token-00001 PUT /requests/c-2 {"contact":"c","kind":"code","label":"Z","registry":"flags","value":65}
< 201 {"ask":{"contact":"c","kind":"code","label":"Z","registry":"flags","value":65},"reference":"c-2","state":"pending"}
> 1700000000 bobby-token-00001 PUT /requests/b-1 {"contact":"c","kind":"code","label":"Red","registry":"flags","value":64}
< 200 {"ask":{"contact":"c","kind":"code","label":"Red","registry":"flags","value":64},"given":"64","reference":"b-1","state":"approved"}
> 1700000000 alice-token-00001 PUT /requests/r-1 {"contact":"c","kind":"code","label":"P","registry":"flags","value":71}
< 201 {"ask":{"contact":"c","kind":"code","label":"P","registry":"flags","value":71},"reference":"r-1","state":"pending"}
> 1700000000 bobby-token-00001 PUT /requests/r-1 {"contact":"c","kind":"code","label":"Q","registry":"flags","value":71}
< 201 {"ask":{"contact":"c","kind":"code","label":"Q","registry":"flags","value":71},"reference":"r-1","state":"pending"}
> 1700000000 alice-token-00001 PUT /requests/r-1 {"contact":"c","kind":"code","label":"P","registry":"flags","value":71}
< 200 {"ask":{"contact":"c","kind":"code","label":"P","registry":"flags","value":71},"reference":"r-1","state":"pending"}
> 1700000000 alice-token-00001 PUT /requests/r-1 {"contact":"c","kind":"code","label":"P","registry":"flags","value":72}
< 409 {"error":"ref"}
> 1700000000 alice-token-00001 PUT /requests/r-9 {"contact":"c","kind":"code","label":"N","registry":"flags","value":70}
< 201 {"ask":{"contact":"c","kind":"code","label":"N","registry":"flags","value":70},"reference":"r-9","state":"pending"}
> 1700000000 bobby-token-00001 GET /requests/r-9
< 404 {"error":"request"}
> 1700000000 bobby-token-00001 GET /requests/r-8
< 404 {"error":"request"}
> 1700000000 bobby-token-00001 DELETE /requests/r-9
< 404 {"error":"request"}

== reviewed
A request that two experts review; each sees its own advice, and nothing of what is not assigned to it.
> 1700000000 alice-token-00001 PUT /requests/a-3 {"contact":"c","kind":"code","label":"Green","registry":"flags","value":200}
< 201 {"ask":{"contact":"c","kind":"code","label":"Green","registry":"flags","value":200},"reference":"a-3","state":"pending"}
> 1700000000 clerk-token-00001 PUT /desk/approve/alice/a-3
< 409 {"error":"advice"}
> 1700000000 clerk-token-00001 PUT /desk/experts/alice/a-3/alice
< 409 {"error":"own"}
> 1700000000 clerk-token-00001 PUT /desk/experts/alice/a-3/xan
< 200 {"account":"alice","ask":{"contact":"c","kind":"code","label":"Green","registry":"flags","value":200},"reference":"a-3","state":"pending"}
> 1700000000 clerk-token-00001 PUT /desk/experts/alice/a-3/yve
< 200 {"account":"alice","ask":{"contact":"c","kind":"code","label":"Green","registry":"flags","value":200},"reference":"a-3","state":"pending"}
> 1700000000 xpert-token-00001 PUT /queue/alice/a-3 {"text":"fine","verdict":"for"}
< 200 {"account":"alice","advice":{"text":"fine","verdict":"for"},"ask":{"contact":"c","kind":"code","label":"Green","registry":"flags","value":200},"reference":"a-3","state":"pending"}
> 1700000000 yolan-token-00001 PUT /queue/alice/a-3 {"text":"no","verdict":"against"}
< 200 {"account":"alice","advice":{"text":"no","verdict":"against"},"ask":{"contact":"c","kind":"code","label":"Green","registry":"flags","value":200},"reference":"a-3","state":"pending"}
> 1700000000 xpert-token-00001 GET /queue
< 200 [{"account":"alice","advice":{"text":"fine","verdict":"for"},"ask":{"contact":"c","kind":"code","label":"Green","registry":"flags","value":200},"reference":"a-3","state":"pending"}]
> 1700000000 alice-token-00001 GET /requests/a-3
< 200 {"ask":{"contact":"c","kind":"code","label":"Green","registry":"flags","value":200},"reference":"a-3","state":"pending"}
> 1700000000 clerk-token-00001 GET /desk/requests/alice/a-3
< 200 {"account":"alice","advice":[{"expert":"xan","text":"fine","verdict":"for"},{"expert":"yve","text":"no","verdict":"against"}],"ask":{"contact":"c","kind":"code","label":"Green","registry":"flags","value":200},"experts":["xan","yve"],"reference":"a-3","state":"pending"}
> 1700000000 clerk-token-00001 PUT /desk/approve/alice/a-3
< 200 {"account":"alice","ask":{"contact":"c","kind":"code","label":"Green","registry":"flags","value":200},"given":"200","reference":"a-3","state":"approved"}
> 1700000000 xpert-token-00001 PUT /queue/alice/a-3 {"text":"no","verdict":"against"}
< 409 {"error":"closed"}
> 1700000000 xpert-token-00001 PUT /queue/alice/a-3 {"text":"fine","verdict":"for"}
< 200 {"account":"alice","advice":{"text":"fine","verdict":"for"},"ask":{"contact":"c","kind":"code","label":"Green","registry":"flags","value":200},"reference":"a-3","state":"approved"}
> 1700000000 xpert-token-00001 PUT /queue/alice/a-2 {"text":"fine","verdict":"for"}
< 404 {"error":"request"}
> 1700000000 xpert-token-00001 PUT /queue/alice/a-7 {"text":"fine","verdict":"for"}
< 404 {"error":"request"}

== blocks
A prefix of the pool, blocks from it, and a holder who is made private.
> 1700000000 clerk-token-00001 PUT /desk/pool/001A2B
< 200 {"pool":"001A2B"}
> 1700000000 clerk-token-00001 PUT /desk/pool/001A2B
< 200 {"pool":"001A2B"}
> 1700000000 - GET /pool
< 200 ["001A2B"]
> 1700000000 alice-token-00001 PUT /requests/m-1 {"address":"1 Road, Town","kind":"block","organization":"Acme, Inc.","size":"MA-M"}
< 201 {"ask":{"address":"1 Road, Town","kind":"block","organization":"Acme, Inc.","size":"MA-M"},"reference":"m-1","state":"pending"}
> 1700000000 alice-token-00001 PUT /requests/s-1 {"address":"1 Road, Town","kind":"block","organization":"Acme, Inc.","size":"MA-S"}
< 201 {"ask":{"address":"1 Road, Town","kind":"block","organization":"Acme, Inc.","size":"MA-S"},"reference":"s-1","state":"pending"}
> 1700000000 alice-token-00001 PUT /requests/m-2 {"address":"1 Road, Town","kind":"block","organization":"Acme, Inc.","size":"MA-M"}
< 201 {"ask":{"address":"1 Road, Town","kind":"block","organization":"Acme, Inc.","size":"MA-M"},"reference":"m-2","state":"pending"}
> 1700000000 alice-token-00001 PUT /requests/s-2 {"address":"1 Road, Town","kind":"block","organization":"Acme, Inc.","size":"MA-S"}
< 201 {"ask":{"address":"1 Road, Town","kind":"block","organization":"Acme, Inc.","size":"MA-S"},"reference":"s-2","state":"pending"}
> 1700000000 alice-token-00001 PUT /requests/l-1 {"address":"1 Road, Town","kind":"block","organization":"Acme, Inc.","size":"MA-L"}
< 201 {"ask":{"address":"1 Road, Town","kind":"block","organization":"Acme, Inc.","size":"MA-L"},"reference":"l-1","state":"pending"}
> 1700000000 clerk-token-00001 PUT /desk/approve/alice/m-1
< 200 {"account":"alice","ask":{"address":"1 Road, Town","kind":"block","organization":"Acme, Inc.","size":"MA-M"},"given":"001A2B0","reference":"m-1","state":"approved"}
> 1700000000 clerk-token-00001 PUT /desk/approve/alice/s-1
< 200 {"account":"alice","ask":{"address":"1 Road, Town","kind":"block","organization":"Acme, Inc.","size":"MA-S"},"given":"001A2B100","reference":"s-1","state":"approved"}
> 1700000000 clerk-token-00001 PUT /desk/approve/alice/m-2
< 200 {"account":"alice","ask":{"address":"1 Road, Town","kind":"block","organization":"Acme, Inc.","size":"MA-M"},"given":"001A2B2","reference":"m-2","state":"approved"}
> 1700000000 clerk-token-00001 PUT /desk/approve/alice/s-2
< 200 {"account":"alice","ask":{"address":"1 Road, Town","kind":"block","organization":"Acme, Inc.","size":"MA-S"},"given":"001A2B101","reference":"s-2","state":"approved"}
> 1700000000 clerk-token-00001 PUT /desk/approve/alice/l-1
< 409 {"error":"exhausted"}
> 1700000000 clerk-token-00001 PUT /desk/pool/011A2B
< 422 {"error":"bits"}
> 1700000000 clerk-token-00001 PUT /desk/pool/021A2B
< 422 {"error":"bits"}
> 1700000000 clerk-token-00001 PUT /desk/pool/0G1A2B
< 422 {"error":"field","item":"prefix"}
> 1700000000 alice-token-00001 PUT /holdings/001A2B0 {"private":true}
< 200 {"address":"1 Road, Town","block":"001A2B0","organization":"Acme, Inc.","private":true,"size":"MA-M"}
> 1700000000 alice-token-00001 PUT /holdings/001A2B0 {"private":true}
< 200 {"address":"1 Road, Town","block":"001A2B0","organization":"Acme, Inc.","private":true,"size":"MA-M"}
> 1700000000 alice-token-00001 GET /holdings
< 200 [{"address":"1 Road, Town","block":"001A2B0","organization":"Acme, Inc.","private":true,"size":"MA-M"},{"address":"1 Road, Town","block":"001A2B100","organization":"Acme, Inc.","private":false,"size":"MA-S"},{"address":"1 Road, Town","block":"001A2B101","organization":"Acme, Inc.","private":false,"size":"MA-S"},{"address":"1 Road, Town","block":"001A2B2","organization":"Acme, Inc.","private":false,"size":"MA-M"}]
> 1700000000 bobby-token-00001 PUT /holdings/001A2B0 {"private":true}
< 404 {"error":"holding"}
> 1700000000 bobby-token-00001 PUT /holdings/001A2B3 {"private":true}
< 404 {"error":"holding"}
> 1700000000 - GET /listings/blocks
< 200 Registry,Assignment,Organization Name,Organization Address|MA-M,001A2B0,Private,|MA-S,001A2B100,"Acme, Inc.","1 Road, Town"|MA-S,001A2B101,"Acme, Inc.","1 Road, Town"|MA-M,001A2B2,"Acme, Inc.","1 Road, Town"|

== early
An early allocation of a leap day that is renewed, expires and is made permanent; asks that are refused.
> 1709164800 alice-token-00001 PUT /requests/e-1 {"chair":"wg","director":"ad","draft":"draft-x-00","interest":true,"kind":"early","label":"Early","registry":"flags","stable":true,"value":7}
< 201 {"ask":{"chair":"wg","director":"ad","draft":"draft-x-00","interest":true,"kind":"early","label":"Early","registry":"flags","stable":true,"value":7},"reference":"e-1","state":"pending"}
> 1709164800 clerk-token-00001 PUT /desk/approve/alice/e-1
< 200 {"account":"alice","ask":{"chair":"wg","director":"ad","draft":"draft-x-00","interest":true,"kind":"early","label":"Early","registry":"flags","stable":true,"value":7},"given":"7","reference":"e-1","state":"approved"}
> 1740614400 - GET /registries/flags
< 200 {"entries":[{"assignee":"alice","expires":"2025-02-28","first":"2024-02-29","label":"Early","renewed":false,"status":"Temporary","value":7},{"assignee":"bob","first":"2023-11-14","label":"Red","status":"Assigned","value":64},{"assignee":"alice","first":"2023-11-14","label":"Green","status":"Assigned","value":200}],"max":255,"name":"flags","ranges":[{"hi":63,"lo":0,"note":"","treatment":"standards-action"},{"hi":191,"lo":64,"note":"","treatment":"first-come-first-served"},{"hi":223,"lo":192,"note":"","treatment":"expert-review"},{"hi":239,"lo":224,"note":"","treatment":"experimental-use"},{"hi":254,"lo":240,"note":"","treatment":"private-use"},{"hi":255,"lo":255,"note":"","treatment":"reserved"}]}
> 1740700800 - GET /registries/flags
< 200 {"entries":[{"assignee":"alice","expires":"2025-02-28","first":"2024-02-29","label":"Early","renewed":false,"status":"Expired","value":7},{"assignee":"bob","first":"2023-11-14","label":"Red","status":"Assigned","value":64},{"assignee":"alice","first":"2023-11-14","label":"Green","status":"Assigned","value":200}],"max":255,"name":"flags","ranges":[{"hi":63,"lo":0,"note":"","treatment":"standards-action"},{"hi":191,"lo":64,"note":"","treatment":"first-come-first-served"},{"hi":223,"lo":192,"note":"","treatment":"expert-review"},{"hi":239,"lo":224,"note":"","treatment":"experimental-use"},{"hi":254,"lo":240,"note":"","treatment":"private-use"},{"hi":255,"lo":255,"note":"","treatment":"reserved"}]}
> 1740614400 alice-token-00001 PUT /requests/n-1 {"chair":"wg","director":"ad","draft":"draft-x-00","interest":true,"kind":"renew","registry":"flags","stable":true,"value":7}
< 201 {"ask":{"chair":"wg","director":"ad","draft":"draft-x-00","interest":true,"kind":"renew","registry":"flags","stable":true,"value":7},"reference":"n-1","state":"pending"}
> 1740614400 clerk-token-00001 PUT /desk/approve/alice/n-1
< 200 {"account":"alice","ask":{"chair":"wg","director":"ad","draft":"draft-x-00","interest":true,"kind":"renew","registry":"flags","stable":true,"value":7},"given":"7","reference":"n-1","state":"approved"}
> 1740614400 - GET /registries/flags
< 200 {"entries":[{"assignee":"alice","expires":"2026-02-28","first":"2024-02-29","label":"Early","renewed":true,"status":"Temporary","value":7},{"assignee":"bob","first":"2023-11-14","label":"Red","status":"Assigned","value":64},{"assignee":"alice","first":"2023-11-14","label":"Green","status":"Assigned","value":200}],"max":255,"name":"flags","ranges":[{"hi":63,"lo":0,"note":"","treatment":"standards-action"},{"hi":191,"lo":64,"note":"","treatment":"first-come-first-served"},{"hi":223,"lo":192,"note":"","treatment":"expert-review"},{"hi":239,"lo":224,"note":"","treatment":"experimental-use"},{"hi":254,"lo":240,"note":"","treatment":"private-use"},{"hi":255,"lo":255,"note":"","treatment":"reserved"}]}
> 1740614400 alice-token-00001 PUT /requests/n-2 {"chair":"wg","director":"ad","draft":"draft-x-00","interest":true,"kind":"renew","registry":"flags","stable":true,"value":7}
< 409 {"error":"renewed"}
> 1772236800 - GET /registries/flags
< 200 {"entries":[{"assignee":"alice","expires":"2026-02-28","first":"2024-02-29","label":"Early","renewed":true,"status":"Expired","value":7},{"assignee":"bob","first":"2023-11-14","label":"Red","status":"Assigned","value":64},{"assignee":"alice","first":"2023-11-14","label":"Green","status":"Assigned","value":200}],"max":255,"name":"flags","ranges":[{"hi":63,"lo":0,"note":"","treatment":"standards-action"},{"hi":191,"lo":64,"note":"","treatment":"first-come-first-served"},{"hi":223,"lo":192,"note":"","treatment":"expert-review"},{"hi":239,"lo":224,"note":"","treatment":"experimental-use"},{"hi":254,"lo":240,"note":"","treatment":"private-use"},{"hi":255,"lo":255,"note":"","treatment":"reserved"}]}
> 1772236800 bobby-token-00001 PUT /requests/b-2 {"chair":"wg","director":"ad","draft":"draft-x-00","interest":true,"kind":"early","label":"Mine","registry":"flags","stable":true,"value":7}
< 409 {"error":"taken"}
> 1772236800 alice-token-00001 PUT /requests/p-1 {"contact":"c","kind":"permanent","registry":"flags","rfc":{"number":9999,"stream":"ietf","track":"standards"},"value":7}
< 201 {"ask":{"contact":"c","kind":"permanent","registry":"flags","rfc":{"number":9999,"stream":"ietf","track":"standards"},"value":7},"reference":"p-1","state":"pending"}
> 1772236800 clerk-token-00001 PUT /desk/approve/alice/p-1
< 200 {"account":"alice","ask":{"contact":"c","kind":"permanent","registry":"flags","rfc":{"number":9999,"stream":"ietf","track":"standards"},"value":7},"given":"7","reference":"p-1","state":"approved"}
> 1772236800 - GET /registries/flags
< 200 {"entries":[{"assignee":"alice","first":"2024-02-29","label":"Early","status":"Assigned","value":7},{"assignee":"bob","first":"2023-11-14","label":"Red","status":"Assigned","value":64},{"assignee":"alice","first":"2023-11-14","label":"Green","status":"Assigned","value":200}],"max":255,"name":"flags","ranges":[{"hi":63,"lo":0,"note":"","treatment":"standards-action"},{"hi":191,"lo":64,"note":"","treatment":"first-come-first-served"},{"hi":223,"lo":192,"note":"","treatment":"expert-review"},{"hi":239,"lo":224,"note":"","treatment":"experimental-use"},{"hi":254,"lo":240,"note":"","treatment":"private-use"},{"hi":255,"lo":255,"note":"","treatment":"reserved"}]}
> 1772236800 alice-token-00001 PUT /requests/n-3 {"chair":"wg","director":"ad","draft":"draft-x-00","interest":true,"kind":"renew","registry":"flags","stable":true,"value":7}
< 409 {"error":"permanent"}
> 1772236800 bobby-token-00001 PUT /requests/b-3 {"chair":"wg","director":"ad","draft":"draft-x-00","interest":true,"kind":"renew","registry":"flags","stable":true,"value":7}
< 404 {"error":"entry"}
> 1772236800 alice-token-00001 PUT /requests/e-2 {"chair":"wg","director":"ad","draft":"draft-x-00","interest":true,"kind":"early","label":"E","registry":"flags","stable":true,"value":66}
< 409 {"error":"early"}
> 1772236800 alice-token-00001 PUT /requests/e-2 {"chair":"wg","director":"ad","draft":"draft-x-00","interest":true,"kind":"early","label":"E","registry":"flags","value":8}
< 422 {"error":"evidence","item":"stable"}
"#;
