//! An object of a stock compiler with other numbers, and a header alone: which fault is told.

use crate::player::play;
use std::test::Fail;

// An object of a stock compiler.
const FULL: &str = r#"file empty.toml
version = 1
key = "000102030405060708090a0b0c0d0e0f"
handler_sp = 0x0600
text = [0x0200, 0x0400]
data = [0x0400, 0x0600]

bytes full.o
7f454c46010101ff000000000000000001006900010000000000000000000000100300000000000034000000000028000d00010041160000006d
737061626900010b000000040106010801000d4c8d104d4d12c30d100d110d110d110d110d110d110c5d0c113041b0120000824c00003c400000
0c9307241c420000b0120000b012000030413c400300b0120000b012000030411d4200000c4d1c53824c00001c4200000e4c1e53824e00000c5d
30411c520000304105000044656269616e20636c616e672076657273696f6e2031342e302e360000000000000000000000000000000000000000
9200000000000000000000000400f1ff000000000000000000000000030003001c000000480000001c00000002000300af000000000000000200
0000010008000000000000000000000000000300080079000000000000001c000000220003007e00000000000000060000001200050048000000
000000000200000011000700560000001c0000002c000000120003002f00000002000000060000001100f2ff8500000000000000000000002000
0000500000000000000000000000100000008b00000002000000020000001100f2ff1e000000050200004800000022000000050a000002000000
26000000050b0000000000002e000000050800000000000032000000050c00000000000036000000050b00000000000040000000050700000000
00004400000005060000000000004a000000050d00000000000052000000050d0000000000005600000005050000000000005e00000005050000
000000000200000005080000000000000b002e72656c612e736d2e6d2e74657874002e72656c612e74657874006b657074002e636f6d6d656e74
002e627373007a65726f73002e4d53503433302e6174747269627574657300636f756e746572006f74686572006d61696e002e6e6f74652e474e
552d737461636b002e6c6c766d5f616464727369670068616c6600696e73696465006d61796265007368617265640066756c6c2e63002e737472
746162002e73796d746162002e646174610068696464656e2e300000000000000000000000000000000000000000000000000000000000000000
0000000000000000000000009900000003000000000000000000000055020000b800000000000000000000000100000000000000350000000300
00700000000000000000340000001700000000000000000000000100000000000000160000000100000006000000000000004c00000064000000
0000000000000000040000000000000011000000040000004000000000000000b8010000900000000c00000003000000040000000c0000000600
0000010000000600000000000000b000000006000000000000000000000002000000000000000100000004000000400000000000000048020000
0c0000000c00000005000000040000000c000000a9000000010000000300000000000000b6000000020000000000000000000000020000000000
00002a000000080000000300000000000000b8000000020000000000000000000000020000000000000021000000010000003000000000000000
b80000001d000000000000000000000001000000010000005b000000010000000000000000000000d50000000000000000000000000000000100
0000000000006b000000034cff6f000000800000000054020000010000000c000000000000000100000000000000a10000000200000000000000
00000000d8000000e000000001000000060000000400000010000000
"#;

// `full.o` with other numbers, and why it is refused.
const CASES: &str = "\
rows patch 4 full.o link empty.toml bad
sancus: bad file bad: *
Short 1304 <- 32=255 33=255 34=255 35=255 # the header table past the file
Short 1304 <- 48=14 # one section too many
Short 1304 <- 48=255 49=255 # the most sections
Section 0 <- 788=1 800=255 801=255 802=255 803=255 # the first section past the file
Section 3 <- 924=205 925=4 # a section one byte past the file
Section 3 <- 924=255 925=255 926=255 927=255 # a size near 2^32
Section 5 <- 1000=252 1001=255 1002=255 1003=255 # an offset near 2^32
Section 9 <- 1160=255 1161=255 1162=255 1163=255 1164=255 1165=255 1166=255 1167=255 # both near 2^32
Section 12 <- 1284=240 1285=255 1286=255 1287=255 # the last section past the file
Section 2 <- 1164=255 1165=255 1166=255 1167=255 884=255 885=255 886=255 887=255 # the first of two
Section 3 <- 936=3 # an alignment of 3
Section 8 <- 1136=0 1138=1 # an alignment of 65,536
Section 7 <- 1096=255 1097=255 1098=255 1099=255 # an alignment near 2^32
Link 0 <- 50=0 # the name table is the first section
Link 3 <- 50=3 # the name table is another section
Link 12 <- 50=12 # the name table is the last section
Link 13 <- 50=13 # the name table is past the last section
Link 65535 <- 50=255 51=255 # the name table near 2^16
Link 12 <- 50=13 1288=2 # a link below the name table
Link 4 <- 1148=2 # another symbol table before it
Link 12 <- 1288=2 # the names of symbols are no string table
Link 12 <- 1288=13 # the names of symbols are past the last section
Link 12 <- 1288=255 1289=255 1290=255 1291=255 # a link near 2^32
Link 12 <- 1300=24 # symbols of 24 bytes
Link 4 <- 980=255 981=255 982=255 983=255 # an entry size near 2^32
Link 12 <- 1284=225 # a part of a symbol
Link 0 <- 788=4 812=13 # the first section has relocations of none
Link 6 <- 1052=13 # relocations of a section past the last
Link 4 <- 972=255 973=255 974=255 975=255 # an info near 2^32
Link 11 <- 1228=9 1229=0 1230=0 1231=0 1252=13 # a REL of a section past the last
Link 6 <- 1048=1 # relocations with no symbol table
Link 6 <- 1060=8 # relocations of 8 bytes
Link 4 <- 964=145 # a part of a relocation
Name 0 <- 784=184 # the first name past the table
Name 5 <- 984=255 985=255 986=255 987=255 # a name near 2^32
Name 12 <- 1264=184 # the last name past the table
Name 7 <- 844=174 # a name that does not end
Link 12 <- 784=184 1300=0 # links before names
Compressed 0 <- 788=1 792=2 793=8 # the first section compressed
Compressed 3 <- 913=8 # a section compressed
Compressed 8 <- 1112=255 1113=255 1114=255 1115=255 # all flags
Compressed 11 <- 1228=1 1229=0 1230=0 1231=0 1232=2 1233=8 1235=0 # the last loaded section compressed
Name 12 <- 913=8 1264=184 # names before flags
RelSection 0 <- 788=9 812=3 # the first section is a REL
RelSection 4 <- 948=9 # a REL
RelSection 11 <- 1228=9 1229=0 1230=0 1231=0 1252=3 # the last but one is a REL
Compressed 8 <- 948=9 1113=8 # compressed before REL
Symbol 1 <- 232=184 # the first symbol past the names
Symbol 4 <- 844=183 # a name of a symbol that does not end
Symbol 13 <- 424=255 425=255 426=255 427=255 # the name of the last symbol near 2^32
Symbol 1 <- 244=52 # the first symbol with binding 3
Symbol 13 <- 436=241 # the last symbol with binding 15
Symbol 7 <- 342=13 # a symbol past the last section
Symbol 7 <- 342=240 343=255 # a symbol of a reserved section
Symbol 7 <- 342=255 343=255 # a symbol near section 2^16
Symbol 10 <- 388=1 # a local common
Symbol 10 <- 380=3 # a common with an alignment of 3
Symbol 13 <- 428=255 429=255 430=255 431=255 # a common with an alignment near 2^32
RelSection 6 <- 1028=9 232=184 # REL before symbols
Relocation 4 0 <- 445=14 # the first relocation past the symbols
Relocation 4 5 <- 504=255 505=255 506=255 507=255 # a relocation past the symbols
Relocation 4 11 <- 577=14 # the last relocation of a table
Relocation 6 0 <- 589=14 # the last relocation of all
Relocation 4 11 <- 588=255 589=255 590=255 591=255 576=255 577=255 578=255 579=255 # the first of two relocations
Symbol 13 <- 424=184 444=255 445=255 446=255 447=255 # symbols before relocations

# These are read, and the layout has no place for the module.

rows patch 5 full.o link empty.toml bad
sancus: link NoPlace 0 5
924=204 925=4 # a section that ends with the file
1120=255 1121=255 1122=255 1123=255 1124=255 1125=255 1126=255 1127=255 # a section of zeros has no bytes
936=0 937=128 1016=0 # an alignment of 32,768 and one of 0
1176=3 # an alignment of 3 of a section that is not loaded
916=255 917=255 918=255 919=255 940=255 941=255 942=255 943=255 # an address is not looked at
1148=255 1149=255 1150=255 1151=255 # no kind that is known
972=9 968=0 # relocations of a section that is not loaded
1264=183 # a name of the last byte
1153=8 # a section compressed that is not loaded
948=9 972=9 # a REL of a section that is not loaded
216=255 217=255 218=255 219=255 228=255 229=255 230=255 231=255 # symbol 0 is not looked at
342=241 343=255 # a symbol that is a number
380=0 # a common with an alignment of 0
444=255 445=13 # a relocation of the last symbol
";

// A header alone, with other numbers: with a section, headers of 41 bytes are refused, and so is a table past
// the file.
const HEADER_CASES: &str = "\
bytes header.o
7f454c46010101000000000000000000010069000100000000000000000000000000000000000000340000000000280000000000

rows patch 4 header.o link empty.toml bad
sancus: bad file bad: *
Magic <- 0=0
Class <- 4=2
Order <- 5=2
Version <- 6=0
Version <- 20=2
Machine 3 <- 18=3
Kind 2 <- 16=2
Machine 3 <- 16=2 18=3
Class <- 4=2 5=2 6=2
Short 52 <- 48=2
HeaderSize 41 <- 46=41 48=1
Short 52 <- 46=40 48=1 32=52

# With no section the size of headers does not matter.

patch bad header.o
46=41

out 0 link empty.toml bad
sancus-image 1
key 000102030405060708090a0b0c0d0e0f
handler 0600
end
";

#[test]
fn header_cases(rt: HostRuntime) -> Result<(), Fail> {
    play(&rt, rt.alloc(), &[FULL, HEADER_CASES])
}

#[test]
fn object_cases(rt: HostRuntime) -> Result<(), Fail> {
    play(&rt, rt.alloc(), &[FULL, CASES])
}
