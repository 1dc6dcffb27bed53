//! The explanations: the rows of docs/TROUBLESHOOTING.md, with a line of meaning. A line is a word, its
//! meaning, cause and remedy, with tabs between. As one text a table takes the prover a second; as an array
//! of rows, a time that grows with the square of their number.

pub(crate) const OF_TEXT: &str = "\
NotUtf8\t\
the text has a byte at which no character of UTF-8 can be read\t\
the text is in another encoding, often Latin-1 or UTF-16\t\
iconv -f LATIN1 -t UTF-8, or -f UTF-16
BadEscape\t\
a backslash begins no escape\t\
a backslash that is meant as itself, as in a Windows path; \\u with too few digits; \\x{..} or \\c\t\
write \\\\; write four digits after \\u, eight after \\U, one or two after \\x
OpenQuote\t\
a quoted piece is never closed\t\
a missing \", or one that a \\ escapes\t\
the line is the last of the text; resb lint says where the quote was lost
OpenComment\t\
a comment that begins with /* is never closed\t\
a missing */; /*/ isn't a whole comment\t\
the line is the last of the text
Unexpected\t\
a token stands where the grammar has none, or the text ends too early\t\
a missing brace or body; at the last line, a brace that was never closed; :table(nofallback) below the top, or another type at the top\t\
resb lint says where a brace was lost; else compare with the grammar of LANGUAGE.md at that line
UnknownType\t\
the word after a colon is no type\t\
a type of genrb that isn't read here: import, include, process(..); a misspelled one; a key with a colon that isn't in quotes, as Africa:Abidjan\t\
put the data itself in the text, or compile it with genrb --formatVersion 1, whose file is read; put the key in quotes
BadKey\t\
a key is empty, or has a character that isn't printable ASCII\t\
a key that isn't printable ASCII, or an empty one; at line 1, a text in UTF-16 without a byte order mark\t\
keys are names, texts are values; iconv -f UTF-16LE -t UTF-8
DuplicateKey\t\
a table has one key twice\t\
an entry that was copied and not renamed\t\
the line is the second one's
BadInt\t\
a text is no integer, or the integer is outside its limits\t\
leading zeros (09 is a bad octal number), an empty text, a fraction, a number past 28 bits of an int or 32 of an intvector; a vector without commas\t\
drop the zeros; write a large number as a String or in an intvector
BadHex\t\
a binary isn't an even number of hexadecimal digits\t\
an odd number of digits, or another character\t\
two digits for each byte
TooDeep\t\
a value is nested deeper than 64 levels\t\
a missing brace; more than 64 levels\t\
join some levels into one key
TrailingText\t\
something follows the bundle's last brace\t\
one } too many, or a second bundle in the text\t\
a text is one bundle
TooLarge\t\
the tree weighs more than 33,554,432\t\
the tree's weight is above 33,554,432\t\
split the bundle
TooLong\t\
the text has more than 8,388,608 bytes\t\
the text has more than 8,388,608 bytes\t\
split the bundle; is it a bundle text?";

pub(crate) const OF_FILE: &str = "\
Header\t\
the file has no header of a resource bundle\t\
not a .res file but a bundle text, say; an empty or cut file\t\
resb compile reads texts, check and get read files
FormatVersion\t\
the file has another format than 1.1\t\
a file that genrb wrote by default, of format 2 or 3\t\
genrb --formatVersion 1, or resb compile on its text; if there is no text, as of ICU's own files, tools/icu2text writes it (ICU.md), and derb -A a damaged one
BigEndian\t\
the file is big-endian\t\
made by genrb on a big-endian machine, or by ICU for Java\t\
compile the text again, or the text that tools/icu2text writes (ICU.md)
Family\t\
the file's characters aren't of the family of ASCII\t\
an EBCDIC file\t\
compile the text again
Attributes\t\
the file's attributes aren't those of a bundle by itself\t\
a pool bundle, or a file whose keys are in one\t\
genrb without --writePoolBundle and --usePoolBundle; of the latter tools/icu2text writes the text (ICU.md)
Indexes\t\
the file's lengths don't agree with each other or with the file\t\
a file that was cut, or copied in part\t\
copy it again, and compare the lengths
Root\t\
the root item isn't a table\t\
the root item isn't a table\t\
the file was damaged
ItemType\t\
an item has a type that there isn't\t\
the file was damaged, or made by a faulty writer\t\
compile the text again
Offset\t\
an item leads out of the file\t\
the file was damaged, or made by a faulty writer\t\
compile the text again
Length\t\
an item ends after its file\t\
the file was damaged, or made by a faulty writer\t\
compile the text again
NotTerminated\t\
a string isn't ended by a zero\t\
the file was damaged, or made by a faulty writer\t\
compile the text again
KeyOrder\t\
a table's keys don't ascend\t\
the file was damaged, or made by a faulty writer\t\
compile the text again
Key\t\
a key is no key, or leads out of the keys\t\
the file was damaged; or a key of genrb that is empty or isn't printable ASCII\t\
rename the key
TooDeep\t\
an item is nested deeper than 64 levels\t\
more than 64 levels, or an item that leads back to itself\t\
compile the text again, with fewer levels
TooLong\t\
the file has more than 67,108,864 bytes\t\
more than 67,108,864 bytes\t\
split the bundle";

pub(crate) const OF_PATH: &str = "\
Missing\t\
the file has no item at the path\t\
another key; an index past the end, or with a leading zero; a path that goes on below a String; an item that is in a parent's bundle\t\
resb get FILE '' and resb get FILE menu print the keys there are
BadPath\t\
the path has an empty segment, or a character that isn't printable ASCII\t\
a slash at the front, at the end, or two in a row; a character that isn't printable ASCII\t\
mend the path
PathTooLong\t\
the path has more than 1,024 bytes\t\
more than 1,024 bytes\t\
use shorter keys";

pub(crate) const OF_PRINTING: &str = "\
TooLarge\t\
the text would have more than 8,388,608 bytes\t\
a file with more items than a text may have, or with items that it shares; it can still be checked, served and looked up\t\
print the parts that you want with resb get";

pub(crate) const OF_VALUE: &str = "\
Missing\t\
the path leads on from an alias\t\
an alias stands before the path's end; json follows none\t\
resb get FILE PATH prints the alias and the rest of the path; ask for the rest where the alias leads
TooLarge\t\
the item has more than 64 levels, or a weight above 33,554,432\t\
a file in which many items share others, so that it spells a far larger tree; no bundle that compile makes is refused\t\
print a part: resb json FILE PATH; get prints any item";

pub(crate) const OF_JSON: &str = "\
NotUtf8\t\
the JSON has a byte at which no character of UTF-8 can be read\t\
the JSON is in another encoding, often Latin-1 or UTF-16\t\
iconv -f LATIN1 -t UTF-8, or -f UTF-16
NotJson\t\
the text is no JSON from this token on, or it ends too early\t\
a comma or a bracket too many or too few, a comment, single quotes, a lone surrogate by its escape; at column 1, a byte order mark\t\
jq . FILE says more; write a lone surrogate as in :units
TrailingText\t\
something follows the JSON value\t\
two values in one file, as lines of JSON, or a bracket too many\t\
a file is one value
NotTable\t\
the whole value is no object, or one with a tag\t\
an item that resb json FILE PATH printed, in place of a whole bundle\t\
put it into an object, under a key
UnknownValue\t\
the value is true, false or null, which no item has\t\
JSON that was not printed by resb json\t\
write 1 and 0, or a string; leave a key out in place of null
BadTag\t\
a key that begins with one colon is no tag, isn't alone in its object, or has a value of another form\t\
a key that begins with a colon and has no second one; a misspelled :alias, :bin, :intvector or :units\t\
write ::key for a key that begins with a colon; JSON.md has each tag's form
BadKey\t\
a key is empty, or has a character that isn't printable ASCII\t\
a key that isn't printable ASCII, or an empty one\t\
keys are names, texts are values
DuplicateKey\t\
an object has one key twice\t\
a member that was copied and not renamed\t\
the place is the second one's
BadNumber\t\
a number is no integer, or is outside its limits\t\
a fraction or an exponent, -0, a number past 28 bits of an Int, 32 of :intvector or 16 of :units, or a string there\t\
write a large number as a string or in :intvector
BadBinary\t\
a :bin isn't an even number of lower-case hexadecimal digits\t\
an odd number of digits, upper case, or another character\t\
two digits of 0 to 9 and a to f for each byte
BadUnits\t\
the units are those of a text, which has its own form\t\
units without a lone surrogate\t\
write them as a string
TooDeep\t\
a value is nested deeper than 64 levels\t\
a missing bracket; more than 64 levels\t\
join some levels into one key
TooLarge\t\
the tree's weight is above 33,554,432 at this value\t\
the tree's weight is above 33,554,432\t\
split the bundle
TooLong\t\
the JSON has more than 134,217,728 bytes\t\
the JSON has more than 134,217,728 bytes\t\
print it without --pretty; split the bundle";

pub(crate) const OF_START: &str = "\
BadText\t\
a bundle text that was given isn't one\t\
an error in a bundle text, which is a file whose name ends in .txt\t\
resb compile FILE out.res prints the line and the word
BadFile\t\
a file that was given is no bundle\t\
an error in a .res file; a text whose name doesn't end in .txt, in these letters\t\
resb check FILE prints the word
Twice\t\
a locale was given twice\t\
two arguments have the same locale, - and _ and the case of letters aside\t\
give one of them
Shape\t\
the explicit parents aren't a table of strings and of arrays of strings\t\
the parents' text has no table parentLocales, or a value in it is neither a String nor an array of Strings; without a type, {} is an array\t\
write parentLocales:table{} for none
BadLocale\t\
an explicit parent or its child is no locale's name\t\
a parent or a child there isn't a valid name\t\
LOOKUP.md, \"How a locale is read\"
TwoParents\t\
a locale has two explicit parents\t\
a child is named twice there, under two parents or one\t\
name it once";

pub(crate) const OF_REQUEST: &str = "\
BadLine\t\
the line is no request\t\
not JSON, or not UTF-8; a member is missing, misspelled, or not a string; both text and file; hexadecimal with another character or an odd number of digits; an empty line; a byte order mark in front of the first line\t\
compare with the forms of SERVER.md
BadApp\t\
the application's name is none\t\
the application's name is empty, longer than 64 bytes, or has other characters than ASCII letters, digits, _, - and .\t\
choose another name
Reserved\t\
the application's name is that of the common bundles\t\
the name ICUDATA\t\
common bundles are given only at the start
BadLocale\t\
the locale is no name\t\
a character set after a dot, an empty part, a part of more than 8 characters, a language of one letter\t\
LOOKUP.md, \"How a locale is read\"
BadText\t\
the bundle text isn't one\t\
the text isn't a valid bundle text\t\
write the text to a file, and resb compile it
BadFile\t\
the file is no bundle\t\
the file isn't a valid bundle\t\
write its bytes to a file, and resb check it
Exists\t\
there is a bundle already\t\
the application has a bundle for this locale\t\
replace puts another one in its place
Absent\t\
there is no bundle\t\
it has none\t\
install; list prints the names
Full\t\
the application has as many bundles as it may\t\
it has 4,096 bundles\t\
remove one
TooLarge\t\
the text of the bundle would have more than 8,388,608 bytes\t\
an export as a text, of a file that resb text doesn't print either\t\
export the file
LineTooLong\t\
the line has more bytes than --line-bytes allows\t\
a line above the limit of this server, often a text or a file within it; it was passed over to its end, and nothing was done\t\
split the bundle, or serve with a larger --line-bytes
BundleTooLong\t\
the text, the file or what the text compiles to has more bytes than --bundle-bytes allows\t\
a text or a file above the limit of this server, or a text whose compiled file is\t\
split the bundle; resb compile prints the length of a text's file
OverQuota\t\
the application's files would have more bytes than --app-bytes allows\t\
the files of the application's other bundles leave too little room for this one\t\
remove bundles, or install a smaller one; usage says what the files have
TooManyApps\t\
as many applications have bundles as --apps allows\t\
it would be the first bundle of one application more\t\
another application has to remove all its bundles, or serve with a larger --apps
ReplyTooLong\t\
the line of the names would have more bytes than --reply-bytes allows\t\
a list of more names than the limit of this server has room for; of an item see the lookups\t\
serve with a larger --reply-bytes
Memory\t\
the server was out of memory for this request, and the bundles are as before (--keep-serving)\t\
memory that other bundles fill, or a text, a file or an item that is large for it\t\
ask again later, or ask for less; if it stays so, the server needs more memory
NeedsTLS\t\
the gateway speaks TLS, and the request came without\t\
http:// in place of https://\t\
ask the address by https://
Unauthorized\t\
there is no token, or the gateway doesn't know it\t\
no header Authorization: Bearer TOKEN; a token that was revoked, has expired, or has fewer than 20 characters\t\
resb-gateway token list says which tokens there are
Forbidden\t\
the token isn't for this application, or only reads\t\
another application's token; a change, or the history, with a token that reads\t\
resb-gateway token add makes one that may
NotFound\t\
the gateway has no such page\t\
a misspelled address; a version without .txt, .res or .json\t\
GET /openapi.json describes all addresses
NotAllowed\t\
the address doesn't have this method\t\
a change of an item in place of its bundle, or a patch of an item\t\
the header Allow names the methods
BadQuery\t\
the query isn't one of this address\t\
a number that is none or too large; DELETE of an application without ?erase\t\
GET /openapi.json describes each query
BadRevision\t\
the value of ?after= is no revision\t\
a revision that is no number\t\
send the header Resb-Revision of a reply
BadType\t\
neither the name's suffix nor the type says what the body is, or it is encoded\t\
curl --data-binary without a suffix, which says that the body is a form; Content-Encoding\t\
put LOCALE.txt or LOCALE.res, or give the Content-Type; a release is application/x-tar, application/zip or application/x-ndjson
BadLength\t\
a request gives the length of its body twice\t\
a client or a proxy that sends both Content-Length and Transfer-Encoding\t\
send one of them
BadRelease\t\
a part of a release can't be read, and nothing was changed\t\
another file in the archive; two files of one locale; a link; an archive that is cut off\t\
the reply names the file or the line and says what is wrong
BadPatch\t\
a patch isn't JSON, or makes no bundle of the stored one, and nothing was changed\t\
another form than that of resb json; a fraction; a key twice; a tag beside others\t\
the reply has the code, the place in the patch and the path of the item
OtherName\t\
the text has another name than the locale, with ?strict\t\
a text that was copied from another locale, or put under the wrong name\t\
compare the first line of the text with the address
PreconditionFailed\t\
a condition of the request, as If-Match, doesn't hold, and nothing was changed\t\
another writer changed the bundle meanwhile; If-None-Match: * where a bundle is\t\
get the bundle again, make the change in it, and put it with its new tag
NoVersion\t\
the history doesn't have this change, or what was submitted isn't kept\t\
one of another application; a version past the limits of the history; a removal, which has no text\t\
GET /v1/APP/_history says which versions are kept
CutOff\t\
the body ended early\t\
a client that gave up; a wrong Content-Length\t\
send it again
Slow\t\
the header or the body didn't come in time\t\
a slow connection\t\
-header-time and -read-time of the gateway are the limits
TooMany\t\
the application has too many requests, bodies or replies on their way\t\
more connections than the gateway admits for one application; a caller that doesn't read its replies\t\
ask again after Retry-After; ask many lookups in one request; -each and -body-bytes are the limits
OverRate\t\
the application has used the requests of this second, or the bytes of this day\t\
more than -rate or -day-bytes of the gateway\t\
ask again after Retry-After
Failed\t\
the gateway failed\t\
a fault of the gateway or of its disk\t\
its log says why
NotOffered\t\
the gateway doesn't find the program resb, which compares versions and explains errors\t\
a gateway that was installed without resb, or whose -program names another file\t\
install resb beside the gateway
Busy\t\
there are too many requests or connections at once\t\
many callers; -all and -connections of the gateway are the limits\t\
ask again after Retry-After
Replaying\t\
the gateway doesn't have all bundles yet\t\
the gateway starts\t\
ask again after Retry-After; /readyz says when it answers
Behind\t\
the gateway doesn't have the revision of ?after= yet\t\
a gateway that doesn't reach etcd; a slow disk\t\
ask again after Retry-After, or another gateway
Unreached\t\
the gateway doesn't reach its store, so no change can be made\t\
a stopped etcd; most of its members are down\t\
ask again after Retry-After; lookups are answered meanwhile
NotKept\t\
the change could not be stored, and was taken back\t\
a disk that fails\t\
the log says why; after a failed sync resb_writes is 0 until a restart
Timeout\t\
no reply came in time\t\
expensive changes of other applications; a change that may still be made\t\
ask whether it was made before you ask again; -patience is the limit
NoRoom\t\
the disk, or the space of etcd, is full\t\
a full disk; etcd's quota\t\
remove bundles, which works on a full disk, or make space";

pub(crate) const OF_LOOKUP: &str = "\
BadPath\t\
the path has an empty segment, or a character that isn't printable ASCII\t\
a slash too many; a character that isn't printable ASCII\t\
mend the path
PathTooLong\t\
a path has more than 1,024 bytes\t\
a path of more than 1,024 bytes, perhaps one that aliases made longer at each step\t\
resb get FILE PATH prints an alias without following it
NoBundle\t\
no name on the way has a bundle\t\
the application has no bundle for the locale, any of its parents or root; another application has it; it was installed in an earlier run of the server; the target of an alias has none\t\
list prints the names; install a root
Missing\t\
no bundle on the way has the item\t\
no bundle on the way has the item; a bundle without fallback ends the way; an alias decides, and its target doesn't have the item\t\
look with a shorter path, and read the keys
Chain\t\
the way of locales has no end within 32 names\t\
%%Parent or %%ALIAS go round in a circle, or there are more than 32 names; a root bundle with a %%Parent. It is reported for every path, also if an early bundle has the item\t\
look reports it for each locale that leads there
BadParent\t\
a bundle on the way names a parent that is no locale's name\t\
the text at %%Parent or %%ALIAS of a bundle on the way isn't a valid name\t\
LOOKUP.md, \"How a locale is read\"
AliasText\t\
the text of an alias leads nowhere\t\
the text of an alias is empty, has no valid locale, an empty segment, or a character that isn't printable ASCII\t\
resb get FILE PATH prints an alias without following it
AliasPackage\t\
an alias leads to a package that there isn't\t\
an alias that begins with a slash and anything but LOCALE or ICUDATA\t\
an application can refer only to its own bundles and to ICUDATA
TooManyAliases\t\
more than 255 aliases lead from one to another\t\
aliases that lead to each other in a circle, or more than 255 in a row\t\
follow them one by one with resb get
TooManySteps\t\
the lookup takes more steps than --steps allows\t\
many aliases on the way, each with a long trail, or a long path; a step is a name of the trail times one more than the segments of the path\t\
resb look --trace counts the levels; use fewer aliases, or shorter paths
TreeTooLarge\t\
the tree of a locale with all that it inherits has more than 33,554,432 bytes, or takes more than 268,435,456 steps\t\
aliases that lead to tables with more aliases, so that tables are repeated again and again\t\
print a smaller part: resb json --inherit LOCALE --path PATH, or path in the request tree
TooDeep\t\
an item of a tree is more than 63 segments below the one that is printed\t\
an alias that leads to a table around itself, or to one so deep that there are more than 63 segments\t\
look at the path with resb look, or let the alias lead elsewhere
ReplyTooLong\t\
the line of the item would have more bytes than --reply-bytes allows\t\
an item that is long: a String, a vector, a binary, or a table of many keys\t\
look further down, or serve with a larger --reply-bytes";

pub(crate) const OF_SERVING: &str = "\
Read\t\
standard input can't be read\t\
standard input can't be read, as a folder\t\
give a file or a pipe
Write\t\
standard output can't be written\t\
the program that read the replies has ended, or the disk is full\t\
the request whose reply was cut has taken effect
LineTooLong\t\
a line has more than 268,435,456 bytes\t\
a line has more than 268,435,456 bytes; often a missing line feed\t\
it ends serving for all applications; with --line-bytes such a line is passed over, and serving goes on
LineLimit\t\
more lines came than one run serves\t\
1,099,511,627,776 lines were served\t\
start again";

pub(crate) const OF_MEMORY: &str = "\
Memory\t\
the program is out of memory\t\
a limit on memory, of the process or its container, or a text, a file or bundles that are too large for it\t\
give it more memory, or less to hold: a text takes 8 to 26 times its length while it is compiled";
