//! Lines that each go on where `rows.rt` ends, each with its answer, worked from the reference. `reg_cli`
//! reads this text as the transcript `after`.

/// The lines and their answers, in parts of which each is an end of its own.
pub const AFTER: &str = r#"
== least
A registry of two values: the least that is free under a policy.
> 1700000000 clerk-token-00001 PUT /desk/registries/tiny/1 lo,hi,treatment,note|0,0,first-come-first-served,|1,1,reserved,|
< 200 {"defined":"tiny"}
> 1700000000 - GET /registries/tiny
< 200 {"entries":[],"max":1,"name":"tiny","ranges":[{"hi":0,"lo":0,"note":"","treatment":"first-come-first-served"},{"hi":1,"lo":1,"note":"","treatment":"reserved"}]}
> 1700000000 alice-token-00001 PUT /requests/t-1 {"contact":"c","kind":"code","label":"T","least":"first-come-first-served","registry":"tiny"}
< 201 {"ask":{"contact":"c","kind":"code","label":"T","least":"first-come-first-served","registry":"tiny"},"reference":"t-1","state":"pending"}
> 1700000000 clerk-token-00001 PUT /desk/approve/alice/t-1
< 200 {"account":"alice","ask":{"contact":"c","kind":"code","label":"T","least":"first-come-first-served","registry":"tiny"},"given":"0","reference":"t-1","state":"approved"}
> 1700000000 bobby-token-00001 PUT /requests/t-1 {"contact":"c","kind":"code","label":"T","least":"first-come-first-served","registry":"tiny"}
< 409 {"error":"exhausted"}
> 1700000000 bobby-token-00001 PUT /requests/t-1 {"contact":"c","kind":"code","label":"T","least":"expert-review","registry":"tiny"}
< 409 {"error":"policy"}

== refused
Paths, methods, bodies and members that no command has, and a line that is none.
> 1700000000 - GET /nothing
< 404 {"error":"route"}
> 1700000000 - PUT /registries
< 405 {"error":"method"}
> 1700000000 alice-token-00001 PUT /requests/a-9 []
< 400 {"error":"body"}
> 1700000000 alice-token-00001 GET /requests {}
< 400 {"error":"body"}
> 1700000000 alice-token-00001 PUT /requests/a-9 {"kind":"code"}
< 422 {"error":"field","item":"registry"}
> 1700000000 alice-token-00001 PUT /requests/a-9 {"contact":"c","kind":"code","label":"L","registry":"flags","value":5,"x":1}
< 422 {"error":"field","item":"extra"}
> 1700000000 alice-token-00001 GET /requests/UP
< 422 {"error":"field","item":"reference"}
> hello
< 400 {"error":"line"}

== closed
Requests that are withdrawn and declined, again, and after that.
> 1700000000 alice-token-00001 DELETE /requests/a-2
< 200 {"ask":{"contact":"c","kind":"code","label":"Blue","registry":"flags","value":64},"reference":"a-2","state":"withdrawn"}
> 1700000000 alice-token-00001 DELETE /requests/a-2
< 200 {"ask":{"contact":"c","kind":"code","label":"Blue","registry":"flags","value":64},"reference":"a-2","state":"withdrawn"}
> 1700000000 clerk-token-00001 PUT /desk/approve/alice/a-2
< 409 {"error":"closed"}
> 1700000000 clerk-token-00001 PUT /desk/decline/carol/c-2 {"reason":"duplicate"}
< 200 {"account":"carol","ask":{"contact":"c","kind":"code","label":"Z","registry":"flags","value":65},"reason":"duplicate","reference":"c-2","state":"declined"}
> 1700000000 clerk-token-00001 PUT /desk/decline/carol/c-2 {"reason":"duplicate"}
< 200 {"account":"carol","ask":{"contact":"c","kind":"code","label":"Z","registry":"flags","value":65},"reason":"duplicate","reference":"c-2","state":"declined"}
> 1700000000 clerk-token-00001 PUT /desk/decline/carol/c-2 {"reason":"other"}
< 409 {"error":"closed"}
> 1700000000 carol-token-00001 DELETE /requests/c-2
< 409 {"error":"closed"}

== revoked
A capability is taken away, twice; the token in use stays.
> 1700000000 clerk-token-00001 PUT /desk/revoke {"token":"carol-token-00001"}
< 200 {"revoked":true}
> 1700000000 clerk-token-00001 PUT /desk/revoke {"token":"carol-token-00001"}
< 200 {"revoked":true}
> 1700000000 carol-token-00001 GET /requests
< 401 {"error":"token"}
> 1700000000 clerk-token-00001 PUT /desk/revoke {"token":"clerk-token-00001"}
< 409 {"error":"own"}

== marked
An entry that is held, a mark that is taken away, and renewals without and with a minute.
> 1709164800 alice-token-00001 PUT /requests/e-9 {"chair":"wg","director":"ad","draft":"draft-x-00","interest":true,"kind":"early","label":"Held","registry":"flags","stable":true,"value":9}
< 201 {"ask":{"chair":"wg","director":"ad","draft":"draft-x-00","interest":true,"kind":"early","label":"Held","registry":"flags","stable":true,"value":9},"reference":"e-9","state":"pending"}
> 1709164800 clerk-token-00001 PUT /desk/approve/alice/e-9
< 200 {"account":"alice","ask":{"chair":"wg","director":"ad","draft":"draft-x-00","interest":true,"kind":"early","label":"Held","registry":"flags","stable":true,"value":9},"given":"9","reference":"e-9","state":"approved"}
> 1740614400 clerk-token-00001 PUT /desk/holds/flags/9 {"held":true}
< 200 {"assignee":"alice","expires":"2025-02-28","first":"2024-02-29","held":true,"label":"Held","renewed":false,"status":"Temporary","value":9}
> 1740700800 - GET /registries/flags
< 200 {"entries":[{"assignee":"alice","first":"2024-02-29","label":"Early","status":"Assigned","value":7},{"assignee":"alice","expires":"2025-02-28","first":"2024-02-29","held":true,"label":"Held","renewed":false,"status":"Temporary","value":9},{"assignee":"bob","first":"2023-11-14","label":"Red","status":"Assigned","value":64},{"assignee":"alice","first":"2023-11-14","label":"Green","status":"Assigned","value":200}],"max":255,"name":"flags","ranges":[{"hi":63,"lo":0,"note":"","treatment":"standards-action"},{"hi":191,"lo":64,"note":"","treatment":"first-come-first-served"},{"hi":223,"lo":192,"note":"","treatment":"expert-review"},{"hi":239,"lo":224,"note":"","treatment":"experimental-use"},{"hi":254,"lo":240,"note":"","treatment":"private-use"},{"hi":255,"lo":255,"note":"","treatment":"reserved"}]}
> 1740700800 clerk-token-00001 PUT /desk/holds/flags/9 {"held":false}
< 200 {"assignee":"alice","expires":"2025-02-28","first":"2024-02-29","label":"Held","renewed":false,"status":"Expired","value":9}
> 1740700800 clerk-token-00001 PUT /desk/holds/flags/9 {"held":false}
< 200 {"assignee":"alice","expires":"2025-02-28","first":"2024-02-29","label":"Held","renewed":false,"status":"Expired","value":9}
> 1740700800 clerk-token-00001 PUT /desk/holds/flags/9 {"held":true}
< 409 {"error":"expired"}
> 1740700800 alice-token-00001 PUT /requests/n-4 {"chair":"wg","director":"ad","draft":"draft-x-00","interest":true,"kind":"renew","registry":"flags","stable":true,"value":9}
< 201 {"ask":{"chair":"wg","director":"ad","draft":"draft-x-00","interest":true,"kind":"renew","registry":"flags","stable":true,"value":9},"reference":"n-4","state":"pending"}
> 1740700800 clerk-token-00001 PUT /desk/approve/alice/n-4
< 200 {"account":"alice","ask":{"chair":"wg","director":"ad","draft":"draft-x-00","interest":true,"kind":"renew","registry":"flags","stable":true,"value":9},"given":"9","reference":"n-4","state":"approved"}
> 1740700800 - GET /registries/flags
< 200 {"entries":[{"assignee":"alice","first":"2024-02-29","label":"Early","status":"Assigned","value":7},{"assignee":"alice","expires":"2026-02-28","first":"2024-02-29","label":"Held","renewed":true,"status":"Temporary","value":9},{"assignee":"bob","first":"2023-11-14","label":"Red","status":"Assigned","value":64},{"assignee":"alice","first":"2023-11-14","label":"Green","status":"Assigned","value":200}],"max":255,"name":"flags","ranges":[{"hi":63,"lo":0,"note":"","treatment":"standards-action"},{"hi":191,"lo":64,"note":"","treatment":"first-come-first-served"},{"hi":223,"lo":192,"note":"","treatment":"expert-review"},{"hi":239,"lo":224,"note":"","treatment":"experimental-use"},{"hi":254,"lo":240,"note":"","treatment":"private-use"},{"hi":255,"lo":255,"note":"","treatment":"reserved"}]}
> 1740700800 alice-token-00001 PUT /requests/n-5 {"chair":"wg","director":"ad","draft":"draft-x-00","interest":true,"kind":"renew","registry":"flags","stable":true,"value":9}
< 409 {"error":"renewed"}
> 1740700800 alice-token-00001 PUT /requests/n-5 {"chair":"wg","director":"ad","draft":"draft-x-00","iesg":"M-7","interest":true,"kind":"renew","registry":"flags","stable":true,"value":9}
< 201 {"ask":{"chair":"wg","director":"ad","draft":"draft-x-00","iesg":"M-7","interest":true,"kind":"renew","registry":"flags","stable":true,"value":9},"reference":"n-5","state":"pending"}
> 1740700800 clerk-token-00001 PUT /desk/approve/alice/n-5
< 200 {"account":"alice","ask":{"chair":"wg","director":"ad","draft":"draft-x-00","iesg":"M-7","interest":true,"kind":"renew","registry":"flags","stable":true,"value":9},"given":"9","reference":"n-5","state":"approved"}
> 1740700800 - GET /registries/flags
< 200 {"entries":[{"assignee":"alice","first":"2024-02-29","label":"Early","status":"Assigned","value":7},{"assignee":"alice","expires":"2027-02-28","first":"2024-02-29","label":"Held","renewed":true,"status":"Temporary","value":9},{"assignee":"bob","first":"2023-11-14","label":"Red","status":"Assigned","value":64},{"assignee":"alice","first":"2023-11-14","label":"Green","status":"Assigned","value":200}],"max":255,"name":"flags","ranges":[{"hi":63,"lo":0,"note":"","treatment":"standards-action"},{"hi":191,"lo":64,"note":"","treatment":"first-come-first-served"},{"hi":223,"lo":192,"note":"","treatment":"expert-review"},{"hi":239,"lo":224,"note":"","treatment":"experimental-use"},{"hi":254,"lo":240,"note":"","treatment":"private-use"},{"hi":255,"lo":255,"note":"","treatment":"reserved"}]}
> 1740700800 clerk-token-00001 PUT /desk/holds/flags/64 {"held":true}
< 409 {"error":"permanent"}
> 1740700800 clerk-token-00001 PUT /desk/holds/flags/65 {"held":true}
< 404 {"error":"entry"}

== agents
Agents that are named, what they are shown, and one that is let go.
> 1700000000 alice-token-00001 PUT /agents/bob {"reads":true}
< 200 {"agent":"bob","reads":true}
> 1700000000 alice-token-00001 PUT /agents/bob {"reads":true}
< 200 {"agent":"bob","reads":true}
> 1700000000 alice-token-00001 PUT /agents/nobody {"reads":true}
< 200 {"agent":"nobody","reads":true}
> 1700000000 alice-token-00001 PUT /agents/alice {"reads":true}
< 409 {"error":"own"}
> 1700000000 alice-token-00001 GET /agents
< 200 ["bob","nobody"]
> 1700000000 bobby-token-00001 GET /principals
< 200 ["alice"]
> 1700000000 alice-token-00001 GET /requests
< 200 [{"ask":{"contact":"c","kind":"code","label":"Blue","registry":"flags","value":64},"reference":"a-2","state":"pending"},{"ask":{"contact":"c","kind":"code","label":"Green","registry":"flags","value":200},"given":"200","reference":"a-3","state":"approved"},{"ask":{"chair":"wg","director":"ad","draft":"draft-x-00","interest":true,"kind":"early","label":"Early","registry":"flags","stable":true,"value":7},"given":"7","reference":"e-1","state":"approved"},{"ask":{"address":"1 Road, Town","kind":"block","organization":"Acme, Inc.","size":"MA-L"},"reference":"l-1","state":"pending"},{"ask":{"address":"1 Road, Town","kind":"block","organization":"Acme, Inc.","size":"MA-M"},"given":"001A2B0","reference":"m-1","state":"approved"},{"ask":{"address":"1 Road, Town","kind":"block","organization":"Acme, Inc.","size":"MA-M"},"given":"001A2B2","reference":"m-2","state":"approved"},{"ask":{"chair":"wg","director":"ad","draft":"draft-x-00","interest":true,"kind":"renew","registry":"flags","stable":true,"value":7},"given":"7","reference":"n-1","state":"approved"},{"ask":{"contact":"c","kind":"permanent","registry":"flags","rfc":{"number":9999,"stream":"ietf","track":"standards"},"value":7},"given":"7","reference":"p-1","state":"approved"},{"ask":{"contact":"c","kind":"code","label":"P","registry":"flags","value":71},"reference":"r-1","state":"pending"},{"ask":{"contact":"c","kind":"code","label":"N","registry":"flags","value":70},"reference":"r-9","state":"pending"},{"ask":{"address":"1 Road, Town","kind":"block","organization":"Acme, Inc.","size":"MA-S"},"given":"001A2B100","reference":"s-1","state":"approved"},{"ask":{"address":"1 Road, Town","kind":"block","organization":"Acme, Inc.","size":"MA-S"},"given":"001A2B101","reference":"s-2","state":"approved"}]
> 1700000000 bobby-token-00001 GET /principals/alice/requests
< 200 [{"ask":{"contact":"c","kind":"code","label":"Blue","registry":"flags","value":64},"reference":"a-2","state":"pending"},{"ask":{"contact":"c","kind":"code","label":"Green","registry":"flags","value":200},"given":"200","reference":"a-3","state":"approved"},{"ask":{"chair":"wg","director":"ad","draft":"draft-x-00","interest":true,"kind":"early","label":"Early","registry":"flags","stable":true,"value":7},"given":"7","reference":"e-1","state":"approved"},{"ask":{"address":"1 Road, Town","kind":"block","organization":"Acme, Inc.","size":"MA-L"},"reference":"l-1","state":"pending"},{"ask":{"address":"1 Road, Town","kind":"block","organization":"Acme, Inc.","size":"MA-M"},"given":"001A2B0","reference":"m-1","state":"approved"},{"ask":{"address":"1 Road, Town","kind":"block","organization":"Acme, Inc.","size":"MA-M"},"given":"001A2B2","reference":"m-2","state":"approved"},{"ask":{"chair":"wg","director":"ad","draft":"draft-x-00","interest":true,"kind":"renew","registry":"flags","stable":true,"value":7},"given":"7","reference":"n-1","state":"approved"},{"ask":{"contact":"c","kind":"permanent","registry":"flags","rfc":{"number":9999,"stream":"ietf","track":"standards"},"value":7},"given":"7","reference":"p-1","state":"approved"},{"ask":{"contact":"c","kind":"code","label":"P","registry":"flags","value":71},"reference":"r-1","state":"pending"},{"ask":{"contact":"c","kind":"code","label":"N","registry":"flags","value":70},"reference":"r-9","state":"pending"},{"ask":{"address":"1 Road, Town","kind":"block","organization":"Acme, Inc.","size":"MA-S"},"given":"001A2B100","reference":"s-1","state":"approved"},{"ask":{"address":"1 Road, Town","kind":"block","organization":"Acme, Inc.","size":"MA-S"},"given":"001A2B101","reference":"s-2","state":"approved"}]
> 1700000000 carol-token-00001 GET /principals/alice/requests
< 404 {"error":"principal"}
> 1700000000 carol-token-00001 GET /principals/dora/requests
< 404 {"error":"principal"}
> 1700000000 xpert-token-00001 GET /principals
< 403 {"error":"kind"}
> 1700000000 bobby-token-00001 GET /requests/r-9
< 404 {"error":"request"}
> 1700000000 alice-token-00001 PUT /agents/bob {"reads":false}
< 200 {"agent":"bob","reads":false}
> 1700000000 bobby-token-00001 GET /principals/alice/requests
< 404 {"error":"principal"}
"#;
