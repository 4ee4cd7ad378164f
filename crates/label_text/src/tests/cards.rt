// The labels of five cards, as veritysetup printed them.

const SMALL1K: &str = "\
VERITY header information for tree
UUID:            \t
Hash type:       \t1
Data blocks:     \t1
Data block size: \t1024
Hash blocks:     \t0
Hash block size: \t4096
Hash algorithm:  \tsha512
Salt:            \t707cf4936be77602c587385a96cf805cc18bb9a2a6fa262eac619dab74c7c8fd
Root hash:      \t1514355b8c23f5f66d285526bfeeb3d5b8a5831f6182d58068a73960857a0cf37b6063fd244f799959212d4720f58f515817003c59ef839a070763684e10db60
Hash device size: \t0 [bytes]
";

const MIXED: &str = "\
VERITY header information for tree
UUID:            \t
Hash type:       \t1
Data blocks:     \t14
Data block size: \t512
Hash blocks:     \t1
Hash block size: \t512
Hash algorithm:  \tsha256
Salt:            \tcadf26c749d54e6e535e604c31ed407b786b07c389aaf4144b0804e8741b7d87
Root hash:      \t1d55a2fcd7192d93a25d3be1b2513b90145843e7e453a346936a4132c9174e8a
Hash device size: \t512 [bytes]
";

const MIXED512: &str = "\
VERITY header information for tree
UUID:            \t
Hash type:       \t1
Data blocks:     \t7
Data block size: \t1024
Hash blocks:     \t1
Hash block size: \t512
Hash algorithm:  \tsha512
Salt:            \tca22031557d02280b76c02a34924e67a
Root hash:      \tcccfc649f0fb6ef1593ae50470c9a1026a018f3362beee153d0e1c73a6b5e86afc53d158b08b5fbc4cec3e24ab926aea028a330ce739171e20ed2e4142194c3b
Hash device size: \t512 [bytes]
";

const PLAIN: &str = "\
VERITY header information for plain.tree
UUID:            \t
Hash type:       \t1
Data blocks:     \t130
Data block size: \t512
Hash blocks:     \t3
Hash block size: \t4096
Hash algorithm:  \tsha256
Salt:            \t-
Root hash:      \tcb2e004bea7d6c1361a661b4724cb4b3c69dfc99798eaec42c85f26b578b645e
Hash device size: \t12288 [bytes]
";

const MANY: &str = "\
VERITY header information for tree
UUID:            \t
Hash type:       \t1
Data blocks:     \t268
Data block size: \t512
Hash blocks:     \t40
Hash block size: \t512
Hash algorithm:  \tsha512
Salt:            \t62
Root hash:      \t8cdced9764381bf21eb6ebeb8a042b27f719e9690bd50b4cfcdb92a8f7baa170659608dbf55981e8989e785a1b54451a0a92659429252c6b1e27d94603b0c9e8
Hash device size: \t20480 [bytes]
";

pub const CARDS: [&str; 5] = [SMALL1K, MIXED, MIXED512, PLAIN, MANY];
