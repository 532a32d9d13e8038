//! Words that aren't of the form.

/// The words of a call behind each line feed, each word behind a blank; the first row has none, and the second one empty
/// word.
pub const NO_FORMS: &str = "

\x20
 --help
 --version
 check check
 check order=
 check order=+1
 check order=00
 check order=65536
 check order=first order=last
 check bits=16
 check within=5
 plan bits=38
 offers within=1
 solve bits=
 solve bits=20
 solve bits=038
 solve within=0
 solve within=1000001
 solve within=
 solve n=5
 solve place=
 solve place=point
 solve place=points place=points
 check place=boxes
 plan place=points
 offers place=points
 migrate place=points
 solve frame=
 solve frame=draw
 solve frame=drawn frame=drawn
 check frame=drawn
 spare frame=base
 verify place=boxes
 spare place=points
 derive place=points
 solve place=Points
 solve bits=38 within=5 bits=38
 solve order=first within=1000001
 grow
 grow n=2
 grow n=1001
 grow n=0003
 grow bits=16
 session n=3
 migrate migrate
 migrate order=first
 migrate bits=16
 migrate within=1
 migrate n=3
 verify verify
 verify order=first
 verify bits=16
 verify within=1
 verify n=3
 spare spare
 spare order=first
 spare bits=16
 spare within=1
 spare n=3
 flips flips
 flips order=
 flips order=00
 flips bits=20
 flips within=0
 flips n=3
 derive order=
 derive order=00
 derive order=first order=last
 derive bits=16
 derive within=1
 derive n=3
 parts parts
 parts order=00
 parts bits=20
 parts within=0
 parts n=3
 live n=3
 live order=00
 live place=point
 excess excess
 excess order=00
 excess bits=20
 excess within=0
 excess n=3
 complete complete
 complete order=first
 complete bits=16
 complete within=1
 complete n=3
 measure measure
 measure order=first
 measure bits=38
 measure within=0
 measure within=5 within=5
 measure place=points
 measure frame=base
 measure n=3
 why why
 why order=first
 why bits=16
 why within=10
 why n=3
 dxf n=3";
